//! The calls that a thread is in.

ghost use Rattle.std.specs.Prelude.{◌≡◌, ◌++◌, ◌∷◌, codes, map, reverse, slice_get, take, IfOk, OnOk};
ghost use Rattle.std.specs.Option.{option_and_then, option_map, option_to_list};
ghost use Rattle.rept_elf.specs.Symbols.{symbol_of};
ghost use Rattle.rept_isa.specs.Texts.{hex_text};
ghost use Rattle.rept_findings.specs.Shown.{IsThreadPoint};
ghost use Rattle.rept_questions.specs.Texts.{function_text, place_line, stack_lines};

use crate::frames::{Frame, frames_of};
use rept_elf::Symbol;
use rept_findings::findings::address_at;
use rept_findings::pieces::push_numbered;
use rept_findings::{Findings, ThreadPoint, push_visible};
use rept_word::{OutOfMemory, Text};
use std::alloc::Global;

/// The most lines that are told.
const MOST_LINES: u32 = 256;

/// The lines of the address at a point of a thread and of the calls that the thread is in there,
/// the last one first.
pub fn stack_text<F: Findings>(
    alloc: Global,
    findings: &F,
    at: ThreadPoint,
) -> Result<Text, OutOfMemory>
    requires { IsThreadPoint (F.shown findings.now) at }
    ensures { IfOk result (λ text. text ≡ stack_lines (F.shown findings.now) at) }
{
    let pc = address_at(findings, at);
    let rows = &findings.rows(at.thread)[..at.point as usize];
    let frames = frames_of(alloc, rows)?;
    let places = places_of(alloc, frames.as_slice(), pc)?;
    let functions = findings.symbols(alloc, places.as_slice())?;
    let mut text = Text::new(alloc);
    for k in 0..MOST_LINES {
        let place = place_at(places.as_slice(), k as usize);
        let function = function_at(functions.as_slice(), k as usize);
        push_place(alloc, &mut text, k, place, function)?;
    }
    Ok(text)
}

/// The addresses of the first places of the stack, as many as are told.
fn places_of(alloc: Global, frames: &[Frame], pc: u32) -> Result<Vec<u32>, OutOfMemory>
    ensures { IfOk result (λ places. places.items ≡ take 256 (pc ∷ reverse (map (λ f. f.at) frames.now))) }
{
    let mut places = Vec::new(alloc);
    for k in 0..MOST_LINES {
        push_some(&mut places, place_of(frames, pc, k as usize))?;
    }
    Ok(places)
}

/// The address of a place of the stack, if it has so many.
fn place_of(frames: &[Frame], pc: u32, k: usize) -> Option<u32>
    ensures { result ≡ slice_get (pc ∷ reverse (map (λ f. f.at) frames.now)) k }
{
    if k == 0 {
        return Some(pc);
    }
    if k > frames.len() {
        return None;
    }
    Some(frames[frames.len() - k].at)
}

fn push_some(places: &mut Vec<u32>, place: Option<u32>) -> Result<(), OutOfMemory>
    ensures { OnOk result (places.new.items ≡ places.old.items ++ option_to_list place) }
{
    if let Some(address) = place {
        places.push(address)?;
    }
    Ok(())
}

fn place_at(places: &[u32], k: usize) -> Option<u32>
    ensures { result ≡ slice_get places.now k }
{
    places.get(k).copied()
}

/// The function of a place, where it has one that is named.
fn function_at<'a>(functions: &[Option<Symbol<'a>>], k: usize) -> Option<Symbol<'a>>
    ensures { option_map symbol_of result ≡ option_and_then (λ function. function) (slice_get (map (option_map symbol_of) functions.now) k) }
{
    match functions.get(k) {
        Some(function) => *function,
        None => None,
    }
}

/// The line of a place of the stack, where the stack has it.
fn push_place(
    alloc: Global,
    text: &mut Text,
    k: u32,
    place: Option<u32>,
    function: Option<Symbol<'_>>,
) -> Result<(), OutOfMemory>
    ensures { OnOk result (text.new ≡ text.old ++ place_line k place (option_map symbol_of function.entry)) }
{
    let Some(address) = place else {
        return Ok(());
    };
    push_numbered(text, b"#", k)?;
    text.push(b" ")?;
    text.push_word(address)?;
    push_function(alloc, text, address, function)?;
    text.push(b"\n")?;
    Ok(())
}

/// The function that has an address, where one is named, and how far the address is from its first
/// one.
pub fn push_function_at<F: Findings>(
    alloc: Global,
    text: &mut Text,
    findings: &F,
    address: u32,
) -> Result<(), OutOfMemory>
    ensures { OnOk result (text.new ≡ text.old ++ function_text address ((F.shown findings.now).symbol address)) }
{
    let functions = findings.symbols(alloc, &[address])?;
    let function = function_at(functions.as_slice(), 0);
    push_function(alloc, text, address, function)
}

/// The function of an address, where one is named.
fn push_function(
    alloc: Global,
    text: &mut Text,
    address: u32,
    symbol: Option<Symbol<'_>>,
) -> Result<(), OutOfMemory>
    ensures { OnOk result (text.new ≡ text.old ++ function_text address (option_map symbol_of symbol.entry)) }
{
    let Some(symbol) = symbol else {
        return Ok(());
    };
    text.push(b" ")?;
    push_visible(text, symbol.name)?;
    text.push(b"+")?;
    push_hex(alloc, text, address.wrapping_sub(symbol.value))?;
    Ok(())
}

/// A number as `0x` and its hexadecimal digits.
fn push_hex(alloc: Global, text: &mut Text, number: u32) -> Result<(), OutOfMemory>
    ensures { OnOk result (text.new ≡ text.old ++ hex_text number) }
{
    let digits = format!(in alloc; "0x{number:x}")?;
    text.push(digits.as_bytes())
}
