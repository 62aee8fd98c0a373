//! Bodies of the methods of a class file.
ghost use Rattle.std.specs.Prelude.{length, IfSome};
ghost use Rattle.jc_base.specs.VerificationTypes.{AreNumberedFrames};
ghost use Rattle.jc_base.specs.WellMade.{IsWellMade};

use crate::insns::{put_code, put_uses};
use crate::states::put_frames;
use jc_base::{Body, Handler, LineAt, Names, VarAt};
use jc_body::read_body;
use jc_class::read_class;
use std::alloc::Global;
use tests_lines::Answer;

/// The most bytes that are read.
pub const MOST_BYTES: usize = 2_000_000;

/// What is told of too many bytes.
pub const TOO_MANY: &str = "no so few bytes";

/// How many methods the class has.
pub fn methods(alloc: Global, class: &[u8], out: &mut Answer) -> Option<()> {
    if class.len() > MOST_BYTES {
        return out.wrong(TOO_MANY);
    }
    let class = out.accepted(read_class(alloc, class))?;
    out.show(&class.methods.len());
    out.put(" methods");
    Some(())
}

/// The body of the method with this number.
pub fn body_of(
    alloc: Global,
    class: &[u8],
    method: u32,
    names: &mut Names,
    out: &mut Answer,
) -> Option<Body>
    ensures made { IfSome result IsWellMade }
    ensures frames { IfSome result (λ body. AreNumberedFrames (length names.new) body.frames) }
{
    if class.len() > MOST_BYTES {
        return out.wrong(TOO_MANY);
    }
    let class = out.accepted(read_class(alloc, class))?;
    if method as usize >= class.methods.len() {
        return out.wrong("no such method");
    }
    match out.accepted(read_body(alloc, &class, method, names))? {
        Some(body) => Some(body),
        None => out.wrong("no body"),
    }
}

/// Puts the rows of an exception table: what is guarded, the handler, and the place of the class.
fn put_handlers(rows: &[Handler], out: &mut Answer) {
    for row in rows {
        out.separate("; ");
        out.show(&row.start);
        out.label(" to ", &row.end);
        out.label(" by ", &row.target);
        out.label(" of #", &row.class);
    }
}

/// Puts lines, each with the instruction at which it begins.
fn put_lines(lines: &[LineAt], out: &mut Answer) {
    for line in lines {
        out.separate("; ");
        out.show(&line.at);
        out.label(" line ", &line.line);
    }
}

/// Puts variables: where each has a value, the places of its name and its descriptor or signature, and its index.
fn put_variables(variables: &[VarAt], out: &mut Answer) {
    for variable in variables {
        out.separate("; ");
        out.show(&variable.start);
        out.label(" to ", &variable.end);
        out.label(" #", &variable.name);
        out.label(" #", &variable.desc);
        out.label(" in ", &variable.slot);
    }
}

/// Puts the part of a body that a word names, or that there is one.
fn put_part(part: &str, body: &Body, names: &Names, out: &mut Answer) -> Option<()> {
    match part {
        "body" => out.put("body"),
        "code" => put_code(&body.code, out),
        "handlers" => put_handlers(&body.handlers, out),
        "lines" => put_lines(&body.lines, out),
        "variables" => put_variables(&body.vars, out),
        "signatures" => put_variables(&body.kind_vars, out),
        "uses" => put_uses(&body.uses, out),
        "frames" => put_frames(&body.frames, names, out),
        word => return out.unknown_word(word),
    }
    Some(())
}

/// A part of the body of the method with this number.
pub fn told(alloc: Global, part: &str, class: &[u8], method: u32, out: &mut Answer) -> Option<()> {
    let mut names = out.got(Names::new(alloc))?;
    let body = body_of(alloc, class, method, &mut names, out)?;
    put_part(part, &body, &names, out)
}
