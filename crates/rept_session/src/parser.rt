//! Reading a line as a command.

ghost use Rattle.std.specs.Prelude.{◌≡◌, ◌==◌, ◌<◌, IfOk, IfSome, MatchResult, None, Some, length};
ghost use Rattle.std.specs.List.{position};
ghost use Rattle.rept_session.specs.Commands.{IsCommandWithin, address_of, alone, around_command, around_words, asked_command, bare_command, begins_with_digit, calls_command, calls_words, command_of, command_of_verb, double_command, find_command, find_words, first_number, from_command, goto_command, is_reserved, lost_command, no_cell, reg_command, single_command, symbol_address, thread_command, why_command, writers_command};
ghost use Rattle.rept_word.specs.Parsing.Numbers.{number_of_word};
ghost use Rattle.rept_session.specs.Registers.{register_of};
ghost use Rattle.rept_session.specs.Words.{words_in};
ghost use Rattle.rept_session.specs.declared.command.BadCommand.TheVariants as bad;
ghost use Rattle.rept_session.specs.declared.verb.QuestionWord.TheVariants as asks;
ghost use Rattle.rept_session.specs.declared.verb.Verb.TheVariants.{One, Two};

use crate::command::{BadCommand, Command};
use crate::names::register_named;
use crate::question::Question;
use crate::verb::{Double, QuestionWord, Single, Verb, verb_named};
use crate::words::{count_words, first_word};
use rept_findings::Findings;
use rept_isa::Reg;
use rept_word::{is_word, number_in};

/// The most bytes of a line that is a command.
const MOST_BYTES: usize = 256;

/// The most bytes, steps or calls that one command tells.
const MOST_TOLD: u32 = 256;

/// How many bytes, steps or calls one tells that names no count.
const SHORT_COUNT: u32 = 16;

/// How many bytes `writers` tells of that names no count.
const ONE_BYTE: u32 = 1;

/// How many steps to each side `around` tells that names no count.
const AROUND_COUNT: u32 = 3;

/// The last point of a thread, and how many threads a run has.
#[derive(Clone, Copy)]
struct ParserLimits {
    last: u32,
    threads: u32,
}

/// The command that a line is, over a thread whose last point is `last` in a run of so many
/// threads, or the first check that fails. It takes no memory. The findings tell which addresses
/// the program gives to names.
///
/// A line's words are parted by spaces and tabs. A line without words is `Nothing`.
pub fn parse<F: Findings>(
    findings: &F,
    line: &[u8],
    last: u32,
    threads: u32,
) -> Result<Command, BadCommand>
    ensures value { result ≡ command_of (F.shown findings.now).address_named last threads line.now }
    ensures within { IfOk result (IsCommandWithin last threads) }
{
    read_line(findings, ParserLimits { last, threads }, line)
}

fn read_line<F: Findings>(
    findings: &F,
    limits: ParserLimits,
    line: &[u8],
) -> Result<Command, BadCommand>
    ensures { result ≡ command_of (F.shown findings.now).address_named limits.last limits.threads line.now }
{
    if line.len() > MOST_BYTES {
        return Err(BadCommand::LongLine);
    }
    let Some((word, rest)) = first_word(line) else {
        return Ok(Command::Nothing);
    };
    match verb_named(word) {
        Some(found) => read_words(findings, limits, found, rest),
        None => Err(BadCommand::Unknown),
    }
}

/// The command of a first word with the words that come after it.
fn read_words<F: Findings>(
    findings: &F,
    limits: ParserLimits,
    found: Verb,
    rest: &[u8],
) -> Result<Command, BadCommand>
    ensures { result ≡ command_of_verb (F.shown findings.now).address_named limits.last limits.threads found (words_in rest.now) }
{
    match found {
        Verb::Lone(command) => read_lone(command, rest),
        Verb::One(single) => read_one(findings, limits, single, rest),
        Verb::Two(double) => read_two(findings, limits, double, rest),
        Verb::Ask(asked) => read_asked(findings, asked, rest),
    }
}

fn read_lone(command: Command, rest: &[u8]) -> Result<Command, BadCommand>
    ensures { result ≡ alone command (words_in rest.now) }
{
    if first_word(rest).is_none() {
        Ok(command)
    } else {
        Err(BadCommand::Words(count_words(rest)))
    }
}

fn read_one<F: Findings>(
    findings: &F,
    limits: ParserLimits,
    single: Single,
    rest: &[u8],
) -> Result<Command, BadCommand>
    ensures { result ≡ command_of_verb (F.shown findings.now).address_named limits.last limits.threads (One single) (words_in rest.now) }
{
    let Some((word, more)) = first_word(rest) else {
        return Err(BadCommand::Words(0));
    };
    if first_word(more).is_some() {
        return Err(BadCommand::Words(count_words(rest)));
    }
    read_single(findings, limits, single, word)
}

fn read_two<F: Findings>(
    findings: &F,
    limits: ParserLimits,
    double: Double,
    rest: &[u8],
) -> Result<Command, BadCommand>
    ensures { result ≡ command_of_verb (F.shown findings.now).address_named limits.last limits.threads (Two double) (words_in rest.now) }
{
    let Some((word, more)) = first_word(rest) else {
        return read_bare(double);
    };
    let Some((second, others)) = first_word(more) else {
        let first = read_first(findings, double, word)?;
        return double_command(limits.last, double, first, SHORT_COUNT);
    };
    if first_word(others).is_some() {
        return Err(BadCommand::Words(count_words(rest)));
    }
    let first = read_first(findings, double, word)?;
    read_double(limits.last, double, first, second)
}

/// A command of one word.
fn read_single<F: Findings>(
    findings: &F,
    limits: ParserLimits,
    single: Single,
    word: &[u8],
) -> Result<Command, BadCommand>
    ensures { result ≡ single_command (F.shown findings.now).address_named limits.last limits.threads single word.now }
{
    match single {
        Single::Back => Ok(Command::Back(read_number(word)?)),
        Single::Fwd => Ok(Command::Fwd(read_number(word)?)),
        Single::Goto => read_goto(limits.last, word),
        Single::Thread => read_thread(limits.threads, word),
        Single::Reg => read_reg(word),
        Single::Range => Ok(Command::Range(read_register(word)?)),
        Single::Writer => Ok(Command::Writer(read_address(findings, word)?)),
        Single::Why => read_why(findings, word),
    }
}

/// A register, or `pc`.
fn read_reg(word: &[u8]) -> Result<Command, BadCommand>
    ensures { result ≡ reg_command (register_of word.now) word.now }
{
    if let Some(found) = register_named(word) {
        return Ok(Command::Reg(found));
    }
    if is_word(word, b"pc") {
        Ok(Command::Ask(Question::Pc))
    } else {
        Err(BadCommand::Register)
    }
}

fn read_goto(last: u32, word: &[u8]) -> Result<Command, BadCommand>
    ensures { result ≡ goto_command last (number_of_word word.now) }
{
    let point = read_number(word)?;
    if point > last {
        return Err(BadCommand::Limit);
    }
    Ok(Command::Goto(point))
}

fn read_thread(threads: u32, word: &[u8]) -> Result<Command, BadCommand>
    ensures { result ≡ thread_command threads (number_of_word word.now) }
{
    let thread = read_number(word)?;
    if thread >= threads {
        return Err(BadCommand::Limit);
    }
    Ok(Command::Thread(thread))
}

/// A word that names a register is one; any other is an address.
fn read_why<F: Findings>(findings: &F, word: &[u8]) -> Result<Command, BadCommand>
    ensures { result ≡ why_command (register_of word.now) word.now (address_of (F.shown findings.now).address_named word.now) }
{
    if let Some(found) = register_named(word) {
        return Ok(Command::WhyReg(found));
    }
    Ok(Command::WhyByte(read_cell(findings, word)?))
}

/// An address, where a register would do as well.
fn read_cell<F: Findings>(findings: &F, word: &[u8]) -> Result<u32, BadCommand>
    ensures { MatchResult result (λ a. address_of (F.shown findings.now).address_named word.now ≡ Some a) (λ e. (address_of (F.shown findings.now).address_named word.now ≡ None) × (e ≡ no_cell word.now)) }
{
    match address_in(findings, word) {
        Some(address) => Ok(address),
        None => Err(no_cell(word)),
    }
}

/// What a word is that is neither a register nor an address.
fn no_cell(word: &[u8]) -> BadCommand
    ensures { result ≡ no_cell word.now }
{
    if begins_with_digit(word) {
        BadCommand::Number
    } else {
        BadCommand::Register
    }
}

fn begins_with_digit(word: &[u8]) -> bool
    ensures { result ≡ begins_with_digit word.now }
{
    match word {
        [first, ..] => first.is_ascii_digit(),
        [] => false,
    }
}

/// The first number of `mem`, which is an address, or of `list`.
fn read_first<F: Findings>(findings: &F, double: Double, word: &[u8]) -> Result<u32, BadCommand>
    ensures { MatchResult result (λ n. first_number (F.shown findings.now).address_named double word.now ≡ Some n) (λ e. (first_number (F.shown findings.now).address_named double word.now ≡ None) × (e ≡ bad.Number)) }
{
    match double {
        Double::Mem => read_address(findings, word),
        Double::List => read_number(word),
    }
}

/// A command of two numbers, of which the second is still a word.
fn read_double(last: u32, double: Double, first: u32, second: &[u8]) -> Result<Command, BadCommand>
    ensures { result ≡ double_command last double (Some first) (number_of_word second.now) }
{
    let count = read_number(second)?;
    double_command(last, double, first, count)
}

/// `mem` or `list` without a number.
fn read_bare(double: Double) -> Result<Command, BadCommand>
    ensures { result ≡ bare_command double }
{
    match double {
        Double::Mem => Err(BadCommand::Words(0)),
        Double::List => Ok(Command::Ask(Question::Recent)),
    }
}

/// A command of two numbers.
fn double_command(last: u32, double: Double, first: u32, count: u32) -> Result<Command, BadCommand>
    ensures { result ≡ double_command last double (Some first) (Some count) }
{
    if count == 0 || count > MOST_TOLD {
        return Err(BadCommand::Limit);
    }
    match double {
        Double::Mem => Ok(Command::Mem {
            address: first,
            count,
        }),
        Double::List => {
            if first > last {
                return Err(BadCommand::Limit);
            }
            Ok(Command::List { first, count })
        }
    }
}

/// The question of a first word, with the words that come after it.
fn read_asked<F: Findings>(
    findings: &F,
    asked: QuestionWord,
    rest: &[u8],
) -> Result<Command, BadCommand>
    ensures { result ≡ asked_command (F.shown findings.now).address_named asked (words_in rest.now) }
{
    match asked {
        QuestionWord::Around => read_around(rest),
        QuestionWord::Visits => read_visits(findings, rest),
        QuestionWord::Find => read_find(rest),
        QuestionWord::From => read_from(findings, rest),
        QuestionWord::Writers => read_writers(findings, rest),
        QuestionWord::Calls => read_calls(rest),
        QuestionWord::Lost => read_lost(findings, rest),
    }
}

/// `around`, and a count where there is one.
fn read_around(rest: &[u8]) -> Result<Command, BadCommand>
    ensures { result ≡ around_words (words_in rest.now) }
{
    let Some((word, more)) = first_word(rest) else {
        return Ok(Command::Ask(Question::Around(AROUND_COUNT)));
    };
    if first_word(more).is_some() {
        return Err(BadCommand::Words(count_words(rest)));
    }
    around_command(word)
}

fn around_command(word: &[u8]) -> Result<Command, BadCommand>
    ensures { result ≡ around_command (number_of_word word.now) }
{
    let count = read_number(word)?;
    if count == 0 || count > MOST_TOLD {
        return Err(BadCommand::Limit);
    }
    Ok(Command::Ask(Question::Around(count)))
}

/// `calls`, and a count where there is one.
fn read_calls(rest: &[u8]) -> Result<Command, BadCommand>
    ensures { result ≡ calls_words (words_in rest.now) }
{
    let Some((word, more)) = first_word(rest) else {
        return Ok(Command::Ask(Question::Calls(SHORT_COUNT)));
    };
    if first_word(more).is_some() {
        return Err(BadCommand::Words(count_words(rest)));
    }
    calls_command(word)
}

fn calls_command(word: &[u8]) -> Result<Command, BadCommand>
    ensures { result ≡ calls_command (number_of_word word.now) }
{
    let count = read_number(word)?;
    if count == 0 || count > MOST_TOLD {
        return Err(BadCommand::Limit);
    }
    Ok(Command::Ask(Question::Calls(count)))
}

/// `lost`, and a register or an address.
fn read_lost<F: Findings>(findings: &F, rest: &[u8]) -> Result<Command, BadCommand>
    ensures { result ≡ asked_command (F.shown findings.now).address_named asks.Lost (words_in rest.now) }
{
    let Some((word, more)) = first_word(rest) else {
        return Err(BadCommand::Words(0));
    };
    if first_word(more).is_some() {
        return Err(BadCommand::Words(count_words(rest)));
    }
    lost_command(findings, word)
}

/// A word that names a register is one; any other is an address.
fn lost_command<F: Findings>(findings: &F, word: &[u8]) -> Result<Command, BadCommand>
    ensures { result ≡ lost_command (register_of word.now) word.now (address_of (F.shown findings.now).address_named word.now) }
{
    if let Some(found) = register_named(word) {
        return Ok(Command::Ask(Question::LostRegister(found)));
    }
    Ok(Command::Ask(Question::LostByte(read_cell(findings, word)?)))
}

/// `visits`, and an address.
fn read_visits<F: Findings>(findings: &F, rest: &[u8]) -> Result<Command, BadCommand>
    ensures { result ≡ asked_command (F.shown findings.now).address_named asks.Visits (words_in rest.now) }
{
    let Some((word, more)) = first_word(rest) else {
        return Err(BadCommand::Words(0));
    };
    if first_word(more).is_some() {
        return Err(BadCommand::Words(count_words(rest)));
    }
    Ok(Command::Ask(Question::Visits(read_address(findings, word)?)))
}

/// `writers`, an address, and a count of bytes where there is one.
fn read_writers<F: Findings>(findings: &F, rest: &[u8]) -> Result<Command, BadCommand>
    ensures { result ≡ asked_command (F.shown findings.now).address_named asks.Writers (words_in rest.now) }
{
    let Some((word, more)) = first_word(rest) else {
        return Err(BadCommand::Words(0));
    };
    let Some((second, others)) = first_word(more) else {
        let address = read_address(findings, word)?;
        return writers_command(address, ONE_BYTE);
    };
    if first_word(others).is_some() {
        return Err(BadCommand::Words(count_words(rest)));
    }
    let address = read_address(findings, word)?;
    writers_command(address, read_number(second)?)
}

fn writers_command(address: u32, count: u32) -> Result<Command, BadCommand>
    ensures { result ≡ writers_command (Some address) (Some count) }
{
    if count == 0 || count > MOST_TOLD {
        return Err(BadCommand::Limit);
    }
    Ok(Command::Ask(Question::Writers { address, count }))
}

/// `find`, a register and a number.
fn read_find(rest: &[u8]) -> Result<Command, BadCommand>
    ensures { result ≡ find_words (words_in rest.now) }
{
    let Some((word, more)) = first_word(rest) else {
        return Err(BadCommand::Words(0));
    };
    let Some((second, others)) = first_word(more) else {
        return Err(BadCommand::Words(1));
    };
    if first_word(others).is_some() {
        return Err(BadCommand::Words(count_words(rest)));
    }
    find_command(word, second)
}

/// `from`, and a register or an address.
fn read_from<F: Findings>(findings: &F, rest: &[u8]) -> Result<Command, BadCommand>
    ensures { result ≡ asked_command (F.shown findings.now).address_named asks.From (words_in rest.now) }
{
    let Some((word, more)) = first_word(rest) else {
        return Err(BadCommand::Words(0));
    };
    if first_word(more).is_some() {
        return Err(BadCommand::Words(count_words(rest)));
    }
    from_command(findings, word)
}

/// A word that names a register is one; any other is an address.
fn from_command<F: Findings>(findings: &F, word: &[u8]) -> Result<Command, BadCommand>
    ensures { result ≡ from_command (register_of word.now) word.now (address_of (F.shown findings.now).address_named word.now) }
{
    if let Some(found) = register_named(word) {
        return Ok(Command::Ask(Question::FromRegister(found)));
    }
    Ok(Command::Ask(Question::FromByte(read_cell(findings, word)?)))
}

fn find_command(word: &[u8], second: &[u8]) -> Result<Command, BadCommand>
    ensures { result ≡ find_command (register_of word.now) (number_of_word second.now) }
{
    let register = read_register(word)?;
    let value = read_number(second)?;
    Ok(Command::Ask(Question::Find { register, value }))
}

/// An address.
fn read_address<F: Findings>(findings: &F, word: &[u8]) -> Result<u32, BadCommand>
    ensures { MatchResult result (λ a. address_of (F.shown findings.now).address_named word.now ≡ Some a) (λ e. (address_of (F.shown findings.now).address_named word.now ≡ None) × (e ≡ bad.Number)) }
{
    match address_in(findings, word) {
        Some(address) => Ok(address),
        None => Err(BadCommand::Number),
    }
}

/// The address that a word tells: a number, or a symbol where the word names no register.
fn address_in<F: Findings>(findings: &F, word: &[u8]) -> Option<u32>
    ensures { result ≡ address_of (F.shown findings.now).address_named word.now }
{
    if let Some(number) = number_in(word) {
        return Some(number);
    }
    if is_reserved(word) {
        return None;
    }
    symbol_address(findings, word)
}

/// Whether a word names a register or `pc`.
fn is_reserved(word: &[u8]) -> bool
    ensures { result ≡ is_reserved word.now }
{
    register_named(word).is_some() || is_word(word, b"pc")
}

/// The address of a symbol of this name, or of `NAME+NUMBER`.
fn symbol_address<F: Findings>(findings: &F, word: &[u8]) -> Option<u32>
    ensures { result ≡ symbol_address (F.shown findings.now).address_named word.now }
{
    if let Some(address) = findings.address_named(word) {
        return Some(address);
    }
    let Some(plus) = first_plus(word) else {
        return None;
    };
    let Some(base) = findings.address_named(&word[..plus]) else {
        return None;
    };
    let Some(offset) = number_in(&word[plus + 1..]) else {
        return None;
    };
    Some(base.wrapping_add(offset))
}

/// Where the first `+` of a word is.
fn first_plus(word: &[u8]) -> Option<usize>
    ensures place { result ≡ position (λ byte. byte == 43) word.now }
    ensures within { IfSome result (λ place. place < length word.now) }
{
    word.iter().position(|byte| *byte == b'+')
}

fn read_number(word: &[u8]) -> Result<u32, BadCommand>
    ensures { MatchResult result (λ n. number_of_word word.now ≡ Some n) (λ e. (number_of_word word.now ≡ None) × (e ≡ bad.Number)) }
{
    match number_in(word) {
        Some(number) => Ok(number),
        None => Err(BadCommand::Number),
    }
}

fn read_register(word: &[u8]) -> Result<Reg, BadCommand>
    ensures { MatchResult result (λ r. register_of word.now ≡ Some r) (λ e. (register_of word.now ≡ None) × (e ≡ bad.Register)) }
{
    match register_named(word) {
        Some(found) => Ok(found),
        None => Err(BadCommand::Register),
    }
}
