//! The lines of `help`.

ghost use Rattle.std.specs.Prelude.{◌≡◌};
ghost use Rattle.rept_session.specs.Help.{help_text};

/// A line for each command, and for each `? N`.
#[tactic(auto, unfolding(crate::specs::Help::help_text))]
pub fn help_text() -> &'static [u8]
    ensures { result.now ≡ help_text }
{
    b"\
where         the cursor, and the address there
goto I        moves the cursor to point I
back K        moves it K points down
fwd K         moves it K points up
thread T      moves it to the last point of thread T
at            the step at the cursor, what it reads and what it writes
around [K]    the steps so near to the cursor; K is 3 if not given
list [I [K]]  K steps from step I on; alone the last 16 before the cursor
stack         the calls that the thread is in
calls [K]     the last K calls before the cursor, and where they returned; 16 if not given
reg R         the value of a register; of pc the address
regs          the values of x1 to x31
range R       the lowest and the highest value of a register
mem A [LEN]   LEN bytes from address A on, 16 if not given; A is a number, NAME or NAME+NUMBER
writer A      the last writer of the byte at address A
writers A [N] the steps that wrote one of N bytes or may have, by instruction; N is 1 if not given
why R         why a register has its value
why A         why the byte at address A has its value
lost R        what keeps a register from being known
lost A        what keeps the byte at address A from being known
from R        the steps that the value of register R came from
from A        the steps that the byte at address A came from
visits A      the points at which the path is at address A
find R V      the points at which register R is known to be V
summary       how much is known
premises      what `infer` took for granted
help          these lines
quit          ends the session
? 1           no such command
? 2           a word is no number, and names no address of the program
? 3           the command takes more words, or fewer
? 4           a word is no register
? 5           a number is past its limit
? 6           the line has more than 256 bytes
"
}
