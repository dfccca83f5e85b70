//! The words by which commands begin.

ghost use Rattle.std.specs.Prelude.{◌≡◌};
ghost use Rattle.rept_session.specs.Commands.{lone_command, single_verb, double_verb, question_word, verb_of};

use crate::command::Command;
use crate::question::Question;
use rept_word::is_word;

/// What a first word asks for: a command, or one that still wants its words.
#[derive(Clone, Copy)]
pub enum Verb {
    /// A command that takes no words.
    Lone(Command),
    /// A command that takes one word.
    One(Single),
    /// A command that takes two words, of which the last ones may be left out.
    Two(Double),
    /// A question.
    Ask(QuestionWord),
}

/// The commands that take one word.
#[derive(Clone, Copy)]
pub enum Single {
    Back,
    Fwd,
    Goto,
    Thread,
    Reg,
    Range,
    Writer,
    Why,
}

/// The commands that take two words.
#[derive(Clone, Copy)]
pub enum Double {
    Mem,
    List,
}

/// The questions that take words.
#[derive(Clone, Copy)]
pub enum QuestionWord {
    Around,
    Visits,
    Find,
    From,
    Writers,
    Calls,
    Lost,
}

/// What a line begins that has this first word. None exactly where the word names no command.
pub fn verb_named(word: &[u8]) -> Option<Verb>
    ensures { result ≡ verb_of word.now }
{
    if let Some(command) = lone_command(word) {
        return Some(Verb::Lone(command));
    }
    if let Some(single) = single_verb(word) {
        return Some(Verb::One(single));
    }
    if let Some(double) = double_verb(word) {
        return Some(Verb::Two(double));
    }
    match question_word(word) {
        Some(asked) => Some(Verb::Ask(asked)),
        None => None,
    }
}

fn lone_command(word: &[u8]) -> Option<Command>
    ensures { result ≡ lone_command word.now }
{
    if is_word(word, b"where") {
        Some(Command::Where)
    } else if is_word(word, b"regs") {
        Some(Command::Regs)
    } else if is_word(word, b"stack") {
        Some(Command::Stack)
    } else if is_word(word, b"summary") {
        Some(Command::Summary)
    } else if is_word(word, b"quit") {
        Some(Command::Quit)
    } else if is_word(word, b"at") {
        Some(Command::Ask(Question::At))
    } else if is_word(word, b"premises") {
        Some(Command::Ask(Question::Premises))
    } else if is_word(word, b"help") {
        Some(Command::Ask(Question::Help))
    } else {
        None
    }
}

fn single_verb(word: &[u8]) -> Option<Single>
    ensures { result ≡ single_verb word.now }
{
    if is_word(word, b"back") {
        Some(Single::Back)
    } else if is_word(word, b"fwd") {
        Some(Single::Fwd)
    } else if is_word(word, b"goto") {
        Some(Single::Goto)
    } else if is_word(word, b"thread") {
        Some(Single::Thread)
    } else if is_word(word, b"reg") {
        Some(Single::Reg)
    } else if is_word(word, b"range") {
        Some(Single::Range)
    } else if is_word(word, b"writer") {
        Some(Single::Writer)
    } else if is_word(word, b"why") {
        Some(Single::Why)
    } else {
        None
    }
}

fn double_verb(word: &[u8]) -> Option<Double>
    ensures { result ≡ double_verb word.now }
{
    if is_word(word, b"mem") {
        Some(Double::Mem)
    } else if is_word(word, b"list") {
        Some(Double::List)
    } else {
        None
    }
}

fn question_word(word: &[u8]) -> Option<QuestionWord>
    ensures { result ≡ question_word word.now }
{
    if is_word(word, b"around") {
        Some(QuestionWord::Around)
    } else if is_word(word, b"visits") {
        Some(QuestionWord::Visits)
    } else if is_word(word, b"find") {
        Some(QuestionWord::Find)
    } else if is_word(word, b"from") {
        Some(QuestionWord::From)
    } else if is_word(word, b"writers") {
        Some(QuestionWord::Writers)
    } else if is_word(word, b"calls") {
        Some(QuestionWord::Calls)
    } else if is_word(word, b"lost") {
        Some(QuestionWord::Lost)
    } else {
        None
    }
}
