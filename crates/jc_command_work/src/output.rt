//! Making the writes of a command.
ghost use Rattle.std.specs.Prelude.{◌≡◌, ◌≢◌, ◌++◌, ◌∷◌, [], map, IfErr, OnOk};
ghost use Rattle.jc_command_work.specs.Step.{to_file, to_out, to_err};
ghost use Rattle.jc_command_work.specs.Part.{writing, writing_all};
ghost use Rattle.jc_command_work.specs.Ending.{Does, DoesFiles, DoesOut, DoesErr};
ghost use Rattle.jc_command_work.specs.Handed.{BetweenFiles, OnOutside};
ghost use Rattle.jc_command_work.specs.Seen.{stop_seen, write_seen};

use crate::outside::Outside;
use crate::stop::Stop;
use jc_bytes::Memory;
use jc_outside::{Files, Sink};

/// What a command writes.
#[derive(Drop)]
pub enum Write<'a> {
    /// The bytes, to the file at the path.
    File { path: &'a str, bytes: Vec<u8> },
    /// The text, on `out`.
    Out { text: Vec<u8> },
    /// The text, on `err`.
    Err { text: Vec<u8> },
}

/// Puts a line on `out` last.
pub fn keep<'a>(writes: &mut Vec<Write<'a>>, text: Vec<u8>) -> Result<(), Memory>
    ensures { OnOk result (writes.new.items ≡ writes.old.items ++ Write.Out text ∷ []) }
{
    writes.push(Write::Out { text })?;
    Ok(())
}

/// Writes the file at a path.
pub fn write_file<'a, F: Files>(files: &mut F, path: &'a str, bytes: &[u8]) -> Result<(), Stop<'a>>
    ensures does { BetweenFiles F.Files files.old files.new (DoesFiles F.landed (writing (to_file path.entry.now bytes.now)) (λ _. tt) stop_seen) result }
    ensures memory { IfErr result (λ stop. stop ≢ Stop.Memory) }
{
    match files.write(path, bytes) {
        Ok(()) => Ok(()),
        Err(_) => Err(Stop::Write(path)),
    }
}

/// Writes a text on `out`.
pub fn put_out<'a, O: Sink>(out: &mut O, text: &[u8]) -> Result<(), Stop<'a>>
    ensures does { DoesOut (writing (to_out text.now)) (λ _. tt) stop_seen (O.told out.old) (O.told out.new) (O.faults out.old) (O.faults out.new) result }
    ensures memory { IfErr result (λ stop. stop ≢ Stop.Memory) }
{
    match out.put(text) {
        Ok(()) => Ok(()),
        Err(_) => Err(Stop::Output),
    }
}

/// Writes a text on `err`.
pub fn put_err<'a, E: Sink>(err: &mut E, text: &[u8]) -> Result<(), Stop<'a>>
    ensures does { DoesErr (writing (to_err text.now)) (λ _. tt) stop_seen (E.told err.old) (E.told err.new) (E.faults err.old) (E.faults err.new) result }
    ensures memory { IfErr result (λ stop. stop ≢ Stop.Memory) }
{
    match err.put(text) {
        Ok(()) => Ok(()),
        Err(_) => Err(Stop::Output),
    }
}

/// Makes one write.
fn write_one<'a, F: Files, O: Sink, E: Sink>(
    outside: &mut Outside<'_, '_, '_, F, O, E>,
    write: &Write<'a>,
) -> Result<(), Stop<'a>>
    ensures does { OnOutside F.Files O.Sink E.Sink outside.old outside.new
        (Does F.landed (writing (write_seen write.now)) (λ _. tt) stop_seen) result }
    ensures memory { IfErr result (λ stop. stop ≢ Stop.Memory) }
{
    match write {
        Write::File { path, bytes } => write_file(outside.files, path, bytes),
        Write::Out { text } => put_out(outside.out, text),
        Write::Err { text } => put_err(outside.err, text),
    }
}

/// Makes the writes in order, up to the first that fails.
pub fn write_all<'a, F: Files, O: Sink, E: Sink>(
    outside: &mut Outside<'_, '_, '_, F, O, E>,
    writes: &[Write<'a>],
) -> Result<(), Stop<'a>>
    ensures does { OnOutside F.Files O.Sink E.Sink outside.old outside.new
        (Does F.landed (writing_all (map write_seen writes.now)) (λ _. tt) stop_seen) result }
    ensures memory { IfErr result (λ stop. stop ≢ Stop.Memory) }
{
    'writing: for write in writes {
        write_one(outside, write)?;
    }
    Ok(())
}
