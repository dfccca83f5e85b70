//! The table of Linux's system calls on 32-bit RISC-V: which bytes of memory each may change.
//!
//! Numbers are those of `asm-generic/unistd.h`, arguments those of syscall(2) and of each call's
//! page in section 2 of the manual: x10 to x15 (a0 to a5). Sizes are those of the kernel's
//! structures on this machine.

ghost use Rattle.std.specs.Prelude.{◌≡◌};
ghost use Rattle.rept_machine.specs.Calls.{call_of};

/// How many bytes there are. Registers are those of arguments, x10 to x15.
#[derive(Clone, Copy)]
pub enum ByteCount {
    /// This many.
    Fixed(u32),
    /// As many as a register says.
    Register(u8),
    /// As many as a register says, and up to 4,095 more: the rest of their last page.
    Pages(u8),
    /// Records of so many bytes each, as many as a register says. Where that are more than `most`,
    /// every byte.
    Records {
        /// the register
        count: u8,
        /// the bytes of a record
        bytes: u32,
        /// the most records
        most: u32,
    },
}

/// Bytes that a call may change. Registers are those of arguments, x10 to x15.
#[derive(Clone, Copy)]
pub enum CallEffect {
    /// From the address in a register on.
    Area {
        /// the register
        base: u8,
        /// how many bytes
        count: ByteCount,
    },
    /// From the address in a register on what was read: no more bytes than another register says,
    /// and no more than the answer. An answer that is an error leaves all as it was, but for
    /// EFAULT, before which some may have been written.
    Read {
        /// the register of the address
        base: u8,
        /// the register of the most bytes
        most: u8,
    },
    /// From the end of the program's own memory up to the answer, which isn't included.
    Heap,
    /// Whole pages of 4,096 bytes from the answer on, unless that is an error.
    Mapping {
        /// the register that says how many bytes they hold at least
        length: u8,
    },
}

/// A call: its number, which is in x17 (a7), and up to two parts of what it may change.
#[derive(Clone, Copy)]
pub struct CallRow {
    /// the number
    pub number: u32,
    /// one part
    pub first: Option<CallEffect>,
    /// the other part
    pub second: Option<CallEffect>,
}

macro_rules! call {
    ($number:literal) => {
        CallRow { number: $number, first: None, second: None }
    };
    ($number:literal, $first:expr) => {
        CallRow { number: $number, first: Some($first), second: None }
    };
    ($number:literal, $first:expr, $second:expr) => {
        CallRow { number: $number, first: Some($first), second: Some($second) }
    };
}

macro_rules! bytes {
    ($base:literal, $count:literal) => {
        CallEffect::Area { base: $base, count: ByteCount::Fixed($count) }
    };
}

macro_rules! counted {
    ($base:literal, $count:literal) => {
        CallEffect::Area { base: $base, count: ByteCount::Register($count) }
    };
}

macro_rules! records {
    ($base:literal, $count:literal, $bytes:literal, $most:literal) => {
        CallEffect::Area {
            base: $base,
            count: ByteCount::Records { count: $count, bytes: $bytes, most: $most },
        }
    };
}

/// The calls that are known, by rising number. Any other may change every byte.
///
/// Of openat, write, writev and pwrite64 it is assumed that they change nothing: their file isn't
/// mapped. Linux shows a write in the pages that map the file, and an openat with
/// O_TRUNC takes these pages away; here a mapped file doesn't change.
pub const CALLS: [CallRow; 75] = [
    call!(17, counted!(10, 11)), // getcwd
    call!(20), // epoll_create1
    call!(21), // epoll_ctl
    call!(22, records!(11, 12, 16, 4294967295)), // epoll_pwait
    call!(23), // dup
    call!(24), // dup3
    call!(25, bytes!(12, 32)), // fcntl64
    call!(34), // mkdirat
    call!(35), // unlinkat
    call!(36), // symlinkat
    call!(37), // linkat
    call!(38), // renameat
    call!(48), // faccessat
    call!(49), // chdir
    call!(50), // fchdir
    call!(52), // fchmod
    call!(53), // fchmodat
    call!(56), // openat
    call!(57), // close
    call!(59, bytes!(10, 8)), // pipe2
    call!(61, counted!(11, 12)), // getdents64
    call!(62, bytes!(13, 8)), // llseek
    call!(63, CallEffect::Read { base: 11, most: 12 }), // read
    call!(64), // write
    call!(66), // writev
    call!(67, CallEffect::Read { base: 11, most: 12 }), // pread64
    call!(68), // pwrite64
    call!(78, counted!(12, 13)), // readlinkat
    call!(96), // set_tid_address
    call!(99), // set_robust_list
    call!(122), // sched_setaffinity
    call!(123, counted!(12, 11)), // sched_getaffinity
    call!(124), // sched_yield
    call!(129), // kill
    call!(131), // tgkill
    call!(132, bytes!(11, 12)), // sigaltstack
    call!(134, bytes!(12, 32)), // rt_sigaction
    call!(135, bytes!(12, 8)), // rt_sigprocmask
    call!(160, bytes!(10, 390)), // uname
    call!(165, bytes!(11, 144)), // getrusage
    call!(166), // umask
    call!(172), // getpid
    call!(173), // getppid
    call!(174), // getuid
    call!(175), // geteuid
    call!(176), // getgid
    call!(177), // getegid
    call!(178), // gettid
    call!(179, bytes!(10, 64)), // sysinfo
    call!(198), // socket
    call!(199, bytes!(13, 8)), // socketpair
    call!(200), // bind
    call!(201), // listen
    call!(203), // connect
    call!(206), // sendto
    call!(208), // setsockopt
    call!(210), // shutdown
    call!(211), // sendmsg
    call!(214, CallEffect::Heap), // brk
    call!(
        215,
        CallEffect::Area {
            base: 10,
            count: ByteCount::Pages(11)
        }
    ), // munmap
    call!(220, bytes!(12, 4), bytes!(14, 4)), // clone
    call!(222, CallEffect::Mapping { length: 11 }), // mmap2
    call!(226), // mprotect
    call!(261, bytes!(13, 16)), // prlimit64
    call!(276), // renameat2
    call!(278, counted!(10, 11)), // getrandom
    call!(291, bytes!(14, 256)), // statx
    call!(403, bytes!(11, 16)), // clock_gettime64
    call!(404), // clock_settime64
    call!(406, bytes!(11, 16)), // clock_getres_time64
    call!(407, bytes!(13, 16)), // clock_nanosleep_time64
    call!(414, records!(10, 11, 8, 65536), bytes!(12, 16)), // ppoll_time64
    call!(422, bytes!(10, 4), bytes!(14, 4)), // futex_time64
    call!(436), // close_range
    call!(439), // faccessat2
];

/// The row of a number among these rows, if there is one.
fn row_in(rows: &[CallRow], number: u32) -> Option<CallRow>
    ensures { result ≡ call_of rows.now number }
{
    for row in rows {
        if row.number == number {
            return Some(*row);
        }
    }
    None
}

/// The row of the call of this number, if it has one.
pub fn call_of(number: u32) -> Option<CallRow>
    ensures { result ≡ call_of CALLS number }
{
    row_in(&CALLS, number)
}
