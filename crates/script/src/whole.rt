//! Whole scripts.

ghost use Rattle.script.specs.Scripts.{OneScript, Parses, lines_of};

use crate::command::{Command, Sizes, Statement};
use crate::line::parse_line;
use crate::reason::{Reason, ScriptError};
use std::alloc::Global;

/// A command, and the number of its line.
#[derive(Clone, Copy, PartialEq, Eq, Debug)]
pub struct Line<'a> {
    pub number: usize,
    pub command: Command<'a>,
}

/// A script: its device, and its commands in their order.
#[derive(Drop)]
pub struct Script<'a> {
    pub sizes: Sizes,
    pub lines: Vec<Line<'a>>,
}

/// Reads the script of a text.
#[tactic(auto, using(crate::proofs::Counted::one_script))]
pub fn parse<'a>(alloc: Global, text: &'a [u8]) -> Result<Script<'a>, ScriptError>
    ensures parses { Parses text.now result }
    ensures one { OneScript (lines_of text.now) }
{
    let mut sizes = None;
    let mut lines = Vec::new(alloc);
    // Counted by hand, since the last number is told if there is no device.
    let mut number = 0;
    for line in text.split(|byte| *byte == b'\n') {
        number += 1;
        match parse_line(line) {
            Err(reason) => return Err(ScriptError::Malformed(number, reason)),
            Ok(None) => {}
            Ok(Some(Statement::Device(found))) => {
                if sizes.is_some() {
                    return Err(ScriptError::Malformed(number, Reason::DeviceRepeated));
                }
                sizes = Some(found);
            }
            Ok(Some(Statement::Command(command))) => {
                if sizes.is_none() {
                    return Err(ScriptError::Malformed(number, Reason::DeviceNotFirst));
                }
                lines.push(Line { number, command })?;
            }
        }
    }
    match sizes {
        None => Err(ScriptError::Malformed(number, Reason::DeviceMissing)),
        Some(sizes) => Ok(Script { sizes, lines }),
    }
}
