//! What stands in a pool at places that a body uses, as words spell it.

use jc_base::{Bytes, List, Use, What};
use std::alloc::Global;
use tests_lines::{Answer, number};

/// A list of the bytes of a word.
fn text(alloc: Global, word: &str, out: &mut Answer) -> Option<Bytes> {
    out.got(Bytes::copy_of(alloc, word.as_bytes()))
}

/// A call that is linked at run time.
fn call(alloc: Global, name: &str, desc: &str, out: &mut Answer) -> Option<What> {
    let name = text(alloc, name, out)?;
    let desc = text(alloc, desc, out)?;
    Some(What::Call { name, desc })
}

/// A constant that a bootstrap method gives.
fn computed(alloc: Global, [name, desc, bootstrap]: [&str; 3], out: &mut Answer) -> Option<What> {
    Some(What::Computed {
        name: text(alloc, name, out)?,
        desc: text(alloc, desc, out)?,
        bootstrap: number::<u16>(bootstrap, out)?,
    })
}

/// A field or a method.
fn member(
    alloc: Global,
    is_field: bool,
    [class, name, desc]: [&str; 3],
    out: &mut Answer,
) -> Option<What> {
    let class = text(alloc, class, out)?;
    let name = text(alloc, name, out)?;
    let desc = text(alloc, desc, out)?;
    Some(if is_field {
        What::Field { class, name, desc }
    } else {
        What::Method { class, name, desc }
    })
}

/// A constant whose value isn't told.
fn untold(word: &str, out: &mut Answer) -> Option<What> {
    match word {
        "Float" => Some(What::Float),
        "Double" => Some(What::Double),
        "Text" => Some(What::Text),
        "Handle" => Some(What::Handle),
        "MethodKind" => Some(What::MethodKind),
        word => out.wrong_word("no use", word),
    }
}

/// A class, or a constant with a value.
fn constant(alloc: Global, form: &str, value: &str, out: &mut Answer) -> Option<What> {
    match form {
        "Class" => Some(What::Class(text(alloc, value, out)?)),
        "Int" => Some(What::Int(number::<i32>(value, out)?)),
        "Long" => Some(What::Long(number::<i64>(value, out)?)),
        form => out.wrong_word("no use", form),
    }
}

/// What these parts of a word spell.
fn of_parts(alloc: Global, parts: &[&str], out: &mut Answer) -> Option<What> {
    match parts {
        ["Field", class, name, desc] => member(alloc, true, [*class, *name, *desc], out),
        ["Method", class, name, desc] => member(alloc, false, [*class, *name, *desc], out),
        ["Computed", name, desc, bootstrap] => { computed(alloc, [*name, *desc, *bootstrap], out) }
        ["Call", name, desc] => call(alloc, name, desc, out),
        [form, value] => constant(alloc, form, value, out),
        [word] => untold(word, out),
        _ => out.wrong("no use"),
    }
}

/// What a word spells, with `:` between its parts.
pub fn what(alloc: Global, word: &str, out: &mut Answer) -> Option<What> {
    let parts: Vec<&str> = out.got(word.split(':').collect(alloc))?;
    of_parts(alloc, &parts, out)
}

/// The place and what stands there that a word spells.
pub fn use_of(alloc: Global, word: &str, out: &mut Answer) -> Option<Use> {
    let Some((place, rest)) = word.split_once(':') else {
        return out.wrong_word("no use", word);
    };
    let place = number::<u16>(place, out)?;
    let what = what(alloc, rest, out)?;
    Some(Use { place, what })
}

/// Puts the texts of a field, a method, a call, a class or a constant.
fn put_texts(form: &str, texts: &[&[u8]], out: &mut Answer) {
    out.put(form);
    for text in texts {
        out.put(" ");
        out.quoted(text);
    }
}

/// Puts what stands at a place.
fn put_what(what: &What, out: &mut Answer) {
    match what {
        What::Field { class, name, desc } => put_texts("Field", &[class, name, desc], out),
        What::Method { class, name, desc } => put_texts("Method", &[class, name, desc], out),
        What::Call { name, desc } => put_texts("Call", &[name, desc], out),
        What::Class(name) => put_texts("Class", &[name], out),
        What::Computed {
            name,
            desc,
            bootstrap,
        } => {
            put_texts("Computed", &[name, desc], out);
            out.put(" ");
            out.show(bootstrap);
        }
        other => out.debug(other),
    }
}

/// Puts a place and what stands there.
pub fn put_use(entry: &Use, out: &mut Answer) {
    out.show(&entry.place);
    out.put(" ");
    put_what(&entry.what, out);
}

/// The places and what stands there that words spell.
pub fn uses(alloc: Global, words: &[&str], out: &mut Answer) -> Option<List<Use>> {
    let mut uses = List::new(alloc);
    for word in words {
        let entry = use_of(alloc, word, out)?;
        let pushed = uses.push(entry);
        out.got(pushed)?;
    }
    Some(uses)
}
