//! The threads that packets name.

ghost use Rattle.std.specs.Prelude.{◌≡◌};
ghost use Rattle.std.specs.List.{position};
ghost use Rattle.rept_remote.specs.Request.Names.{acted_range, acted_thread, action_thread, before_colon, first_action, is_colon, is_semicolon, name_of, thread_after, thread_name};

use crate::request::numbers::pair_of;
use crate::request::request::ThreadName;
use rept_word::{hexadecimal, is_word};

/// The thread that a word names.
fn thread_name(word: &[u8]) -> ThreadName
    ensures { result ≡ thread_name word.now }
{
    if is_word(word, b"-1") {
        ThreadName::Any
    } else {
        name_of(hexadecimal(word))
    }
}

fn name_of(number: Option<u32>) -> ThreadName
    ensures { result ≡ name_of number }
{
    match number {
        None => ThreadName::Unreadable,
        Some(0) => ThreadName::Any,
        Some(number) => ThreadName::One(number),
    }
}

/// The thread that is named after so many bytes of a packet.
pub fn thread_after(count: usize, packet: &[u8]) -> ThreadName
    ensures { result ≡ thread_after count packet.now }
{
    let start = packet.len().min(count);
    thread_name(&packet[start..])
}

/// The thread of the first action of `vCont;`.
pub fn acted_thread(packet: &[u8]) -> ThreadName
    ensures { result ≡ acted_thread packet.now }
{
    let start = packet.len().min(6);
    action_thread(first_action(&packet[start..]))
}

/// The two numbers of the first action of `vCont;`, after the letter that says which one it is.
pub fn acted_range(packet: &[u8]) -> Option<(u32, u32)>
    ensures { result ≡ acted_range packet.now }
{
    let start = packet.len().min(7);
    pair_of(before_colon(first_action(&packet[start..])))
}

/// An action without its thread.
fn before_colon(action: &[u8]) -> &[u8]
    ensures { result.now ≡ before_colon action.now }
{
    match colon_in(action) {
        Some(colon) => &action[..colon],
        None => action,
    }
}

/// The first of some actions.
fn first_action(actions: &[u8]) -> &[u8]
    ensures { result.now ≡ first_action actions.now }
{
    match semicolon_in(actions) {
        Some(end) => &actions[..end],
        None => actions,
    }
}

/// The thread of an action.
fn action_thread(action: &[u8]) -> ThreadName
    ensures { result ≡ action_thread action.now }
{
    match colon_in(action) {
        Some(colon) => thread_name(&action[colon + 1..]),
        None => ThreadName::Any,
    }
}

/// Where the first semicolon is.
fn semicolon_in(text: &[u8]) -> Option<usize>
    ensures { result ≡ position is_semicolon text.now }
{
    text.iter().position(|byte| *byte == b';')
}

/// Where the first colon is.
fn colon_in(text: &[u8]) -> Option<usize>
    ensures { result ≡ position is_colon text.now }
{
    text.iter().position(|byte| *byte == b':')
}
