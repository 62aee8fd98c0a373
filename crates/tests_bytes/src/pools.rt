//! Constant pools: what stands at a place, and what is added.

use jc_base::{Fail, Reader};
use jc_class::{Attribute, read_attributes};
use jc_pool::{BadIndex, HandleText, MemberText, Planned, Pool, PoolFull};
use std::alloc::Global;
use tests_lines::{Answer, bytes, number, short};

/// Reads the pool in front of the bytes, keeps it, and puts its count and how many bytes it took. Where the bytes are
/// refused, no pool is kept.
fn read(alloc: Global, kept: &mut Option<Pool>, words: &[&str], out: &mut Answer) -> Option<()> {
    let bytes = bytes(alloc, words, out)?;
    let mut reader = Reader::new(&bytes);
    *kept = out.accepted(Pool::read(alloc, &mut reader));
    if let Some(pool) = kept {
        out.label("count ", &pool.count());
        out.label(" of ", &reader.place());
        out.put(" bytes");
    }
    Some(())
}

/// Puts a text or a name.
fn put_named(named: Result<&[u8], BadIndex>, out: &mut Answer) -> Option<()> {
    match named {
        Ok(bytes) => out.quoted(bytes),
        Err(BadIndex) => out.put("BadIndex"),
    }
    Some(())
}

/// Puts a member: its tag, and its texts.
fn put_member(member: Result<MemberText<'_>, BadIndex>, out: &mut Answer) -> Option<()> {
    match member {
        Ok(member) => {
            out.show(&member.tag);
            out.put(" ");
            out.quoted(member.class);
            out.put(" ");
            out.quoted(member.name);
            out.put(" ");
            out.quoted(member.desc);
        }
        Err(BadIndex) => out.put("BadIndex"),
    }
    Some(())
}

/// Puts a constant.
fn put_constant(pool: &Pool, place: u16, out: &mut Answer) -> Option<()> {
    match pool.const_at(place) {
        Ok(constant) => out.debug(&constant),
        Err(BadIndex) => out.put("BadIndex"),
    }
    Some(())
}

/// Puts a method handle: its kind, and the place of its member.
fn put_handle(handle: Result<HandleText, BadIndex>, out: &mut Answer) -> Option<()> {
    match handle {
        Ok(handle) => {
            out.show(&handle.kind);
            out.label(" ", &handle.member);
        }
        Err(BadIndex) => out.put("BadIndex"),
    }
    Some(())
}

/// Puts the number of a bootstrap method.
fn put_bootstrap(bootstrap: Result<u16, BadIndex>, out: &mut Answer) -> Option<()> {
    match bootstrap {
        Ok(bootstrap) => out.show(&bootstrap),
        Err(BadIndex) => out.put("BadIndex"),
    }
    Some(())
}

/// Puts the form of a text or of a member.
fn put_form(pool: &Pool, call: &str, place: u16, out: &mut Answer) -> Option<()> {
    match call {
        "is_modified_at" => out.answer(&pool.is_modified_at(place)),
        "is_field_descriptor_at" => out.answer(&pool.is_field_descriptor_at(place)),
        "is_method_descriptor_at" => out.answer(&pool.is_method_descriptor_at(place)),
        "is_class_name_modified" => out.answer(&pool.is_class_name_modified(place)),
        "has_field_descriptor" => out.answer(&pool.has_field_descriptor(place)),
        "has_method_descriptor" => out.answer(&pool.has_method_descriptor(place)),
        call => out.unknown_word(call),
    }
}

/// Puts what stands at a place.
fn look_up(pool: &Pool, call: &str, place: u16, out: &mut Answer) -> Option<()> {
    match call {
        "utf8_at" => put_named(pool.utf8_at(place), out),
        "class_at" => put_named(pool.class_at(place), out),
        "const_at" => put_constant(pool, place, out),
        "member_at" => put_member(pool.member_at(place), out),
        "handle_at" => put_handle(pool.handle_at(place), out),
        "bootstrap_at" => put_bootstrap(pool.bootstrap_at(place), out),
        call => put_form(pool, call, place, out),
    }
}

/// Puts the bytes of the pool behind those that the words spell.
fn write_pool(alloc: Global, pool: &Pool, words: &[&str], out: &mut Answer) -> Option<()> {
    let mut bytes = bytes(alloc, words, out)?;
    out.got(pool.write(alloc, &mut bytes))?;
    out.bytes(&bytes);
    Some(())
}

/// Puts attributes: the place of the name, and the bytes.
fn put_attributes(attributes: &[Attribute], out: &mut Answer) {
    for attribute in attributes {
        out.show(&attribute.name);
        out.put(" ");
        out.bytes_0x(&attribute.body);
        out.put(", ");
    }
}

/// Puts the attributes in front of the bytes, and where they end.
fn attributes(alloc: Global, pool: &Pool, words: &[&str], out: &mut Answer) -> Option<()> {
    let bytes = bytes(alloc, words, out)?;
    let mut reader = Reader::new(&bytes);
    let attributes = out.accepted(read_attributes(alloc, &mut reader, pool))?;
    put_attributes(attributes.as_slice(), out);
    out.label("end ", &reader.place());
    Some(())
}

/// Puts where an entry stands, or the count that the pool would have.
fn put_added(added: Result<u16, Fail<PoolFull>>, out: &mut Answer) -> Option<()> {
    match added {
        Ok(place) => out.show(&place),
        Err(Fail::Said(full)) => out.label("PoolFull ", &full.count),
        Err(Fail::Memory) => return out.lose(),
    }
    Some(())
}

/// Adds a field or a method.
fn add_member(
    alloc: Global,
    pool: &mut Pool,
    tag: &str,
    [class, name, desc]: [&str; 3],
    out: &mut Answer,
) -> Option<()> {
    let kind = number::<u8>(tag, out)?;
    let class = short(class, out)?;
    let name = short(name, out)?;
    let desc = short(desc, out)?;
    if kind < 9 || kind > 11 {
        return out.wrong_word("no tag of a member", tag);
    }
    put_added(pool.add_member(alloc, kind, class, name, desc), out)
}

/// Adds the handle of a static method.
fn add_handle(
    alloc: Global,
    pool: &mut Pool,
    [class, name, desc]: [&str; 3],
    out: &mut Answer,
) -> Option<()> {
    let class = short(class, out)?;
    let name = short(name, out)?;
    let desc = short(desc, out)?;
    put_added(pool.add_handle(alloc, class, name, desc), out)
}

/// Adds a constant that a bootstrap method gives.
fn add_dynamic(
    alloc: Global,
    pool: &mut Pool,
    [bootstrap, name, desc]: [&str; 3],
    out: &mut Answer,
) -> Option<()> {
    let bootstrap = number::<u16>(bootstrap, out)?;
    let name = short(name, out)?;
    let desc = short(desc, out)?;
    put_added(pool.add_dynamic(alloc, bootstrap, name, desc), out)
}

/// Puts where such a constant would stand, and the count that the pool would have.
fn place_of_dynamic(
    alloc: Global,
    pool: &Pool,
    [bootstrap, name, desc]: [&str; 3],
    out: &mut Answer,
) -> Option<()> {
    let bootstrap = number::<u16>(bootstrap, out)?;
    let planned = pool.place_of_dynamic(alloc, bootstrap, name.as_bytes(), desc.as_bytes());
    let Planned { place, count } = out.got(planned)?;
    out.show(&place);
    out.label(" of ", &count);
    Some(())
}

/// Puts where ints would stand, behind so many places, and the count that the pool would have.
fn places_of_ints(
    alloc: Global,
    pool: &Pool,
    [start, first, many]: [&str; 3],
    out: &mut Answer,
) -> Option<()> {
    let count = number::<u32>(start, out)?;
    let first = number::<u16>(first, out)?;
    let many = number::<u16>(many, out)?;
    if count > 1_000_000 {
        return out.wrong_word("no count", start);
    }
    let planned = out.got(pool.places_of_ints(alloc, count, first, many))?;
    for place in planned.places.as_slice() {
        out.show(place);
        out.put(" ");
    }
    out.label("of ", &planned.count);
    Some(())
}

/// What a call of three values answers.
fn of_three(
    alloc: Global,
    pool: &mut Pool,
    call: &str,
    values: [&str; 3],
    out: &mut Answer,
) -> Option<()> {
    match call {
        "add_handle" => add_handle(alloc, pool, values, out),
        "add_dynamic" => add_dynamic(alloc, pool, values, out),
        "place_of_dynamic" => place_of_dynamic(alloc, pool, values, out),
        "places_of_ints" => places_of_ints(alloc, pool, values, out),
        call => out.unknown_word(call),
    }
}

/// Adds an entry of one value, or puts what stands at a place.
fn of_value(
    alloc: Global,
    pool: &mut Pool,
    call: &str,
    value: &str,
    out: &mut Answer,
) -> Option<()> {
    match call {
        "add_utf8" => put_added(pool.add_utf8(alloc, short(value, out)?), out),
        "add_class" => put_added(pool.add_class(alloc, short(value, out)?), out),
        "add_string" => put_added(pool.add_string(alloc, short(value, out)?), out),
        "add_int" => put_added(pool.add_int(alloc, number::<i32>(value, out)?), out),
        "add_long" => put_added(pool.add_long(alloc, number::<i64>(value, out)?), out),
        "find_class" => out.answer_debug(&pool.find_class(value.as_bytes())),
        call => look_up(pool, call, number::<u16>(value, out)?, out),
    }
}

/// What a call on a pool answers.
fn of_pool(alloc: Global, pool: &mut Pool, words: &[&str], out: &mut Answer) -> Option<()> {
    match words {
        ["count"] => out.answer(&pool.count()),
        ["write", text @ ..] => write_pool(alloc, pool, text, out),
        ["attributes", text @ ..] => attributes(alloc, pool, text, out),
        ["add_member", tag, class, name, desc] => {
            add_member(alloc, pool, tag, [class, name, desc], out)
        }
        [call, first, second, third] => of_three(alloc, pool, call, [first, second, third], out),
        [call, value] => of_value(alloc, pool, call, value, out),
        words => out.unknown(words),
    }
}

/// What a call answers. The calls behind `read` are of the pool that it read.
pub fn answer(
    alloc: Global,
    kept: &mut Option<Pool>,
    words: &[&str],
    out: &mut Answer,
) -> Option<()> {
    match words {
        ["read", text @ ..] => read(alloc, kept, text, out),
        words => match kept {
            Some(pool) => of_pool(alloc, pool, words, out),
            None => out.wrong("no pool"),
        },
    }
}
