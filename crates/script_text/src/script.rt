ghost use Rattle.std.specs.Prelude.{◌≡◌, ℕ, List, [], ◌∷◌, length, slice_get};
ghost use Rattle.std.specs.Option.{option_map};
ghost use Rattle.line_text.specs.Lines.{words_of, kept_lines};
ghost use Rattle.script_text.specs.Script.{grants as grants_of, next_command, commands_after, Gives, Answers, Reads};

use crate::command::Command;
use crate::fault::{LineFault, ScriptFault};
use crate::limits::{MOST_COMMANDS, MOST_GRANTS};
use crate::rows::command;
use line_text::{Cause, MOST_TEXT_BYTES, split_kept, split_line};
use std::alloc::Global;
use std::marker::Model;

/// The commands of a script, seen by contracts as their list, each with the number of its line.
#[derive(Drop)]
pub struct Script {
    commands: Vec<(u64, Command)>,
}

impl Model for Script {
    ghost use Rattle.std.specs.Prelude.{ℕ, List};
    ghost use Rattle.script_text.specs.declared.command.Command.{Command};

    ghost Value = { List (ℕ × Command) };

    ghost view = { λ s. s.commands.items };
}

impl Script {
    /// How many commands there are.
    pub fn len(&self) -> u64
        ensures { result ≡ length self.now }
    {
        self.commands.len() as u64
    }

    /// The commands themselves, each with the number of its line.
    pub fn into_commands(self) -> Vec<(u64, Command)>
        ensures { result.items ≡ self }
    {
        self.commands
    }

    /// A command and the number of its line, by its place, which counts from 0. None comes exactly
    /// at a place from `len` on.
    pub fn get(&self, place: u64) -> Option<(u64, &Command)>
        ensures { option_map (λ item. (item.0, item.1.now)) result ≡ slice_get self.now place }
    {
        let (number, command) = self.commands.get(place as usize)?;
        Some((*number, command))
    }
}

/// Reads a script whole: its commands, or the first place where it is refused and the cause.
///
/// A text of more than 1,048,576 bytes is refused before all else. Then the first line that is
/// refused counts: by its first word, then by how many words it has, then by the words from left to
/// right, and then where it is the 4,097th command or the 1,025th that may be granted a segment.
pub fn read_script(alloc: Global, bytes: &[u8]) -> Result<Script, ScriptFault>
    ensures { Reads result bytes.now }
{
    if bytes.len() as u64 > MOST_TEXT_BYTES {
        return Err(LineFault::Refused(Cause::Long).at(MOST_TEXT_BYTES));
    }
    read_lines(alloc, bytes)
}

fn read_lines(alloc: Global, text: &[u8]) -> Result<Script, ScriptFault>
    ensures { Answers result (commands_after [] (kept_lines text.now)) }
{
    let mut commands = Vec::new(alloc);
    let mut grants = 0;
    let mut number = 0;
    let mut rest = text;
    while let Some((line, after)) = split_line(rest) {
        rest = after;
        number += 1;
        if let Some((name, words)) = split_kept(line) {
            let command = match next_command(alloc, &commands, grants, name, words) {
                Ok(command) => command,
                Err(fault) => return Err(fault.at(number)),
            };
            if command.is_grant() {
                grants += 1;
            }
            commands.push((number, command))?;
        }
    }
    Ok(Script { commands })
}

/// The command of a line, after the commands before it.
fn next_command(
    alloc: Global,
    before: &[(u64, Command)],
    grants: u64,
    name: &[u8],
    words: &[u8],
) -> Result<Command, LineFault>
    requires { grants ≡ grants_of before.now }
    ensures { Gives result (next_command before.now (name.now ∷ words_of words.now)) }
{
    let command = command(alloc, name, words)?;
    if before.len() as u64 >= MOST_COMMANDS || (command.is_grant() && grants >= MOST_GRANTS) {
        return Err(LineFault::Refused(Cause::Many));
    }
    Ok(command)
}
