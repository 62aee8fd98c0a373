//! Which methods threads may enter.
ghost use Rattle.std.specs.Prelude.{◌≡◌};
ghost use Rattle.jc_machine_model.specs.Methods.{is_init_name, declares_init, most_frame_slots, is_wide, is_synchronized, is_native, is_plain, is_enterable};
ghost use Rattle.jc_machine_model.specs.Locked.{is_locked};

use jc_methods::{Body, INIT_NAME, is_static};
use jc_programs::Linked;

/// Whether it is the name of the method that gives the probe array.
pub fn is_init_name(name: &[u8]) -> bool
    ensures { result ≡ is_init_name name.now }
{
    name == INIT_NAME
}

/// Whether the class declares a method `$jacocoInit`.
pub fn declares_init(class: &Linked) -> bool
    ensures { result ≡ declares_init class.now }
{
    class
        .bodies
        .iter()
        .any(|body| is_init_name(body.name.as_slice()))
}

/// The most slots that a method of the class may have.
pub fn most_frame_slots(class: &Linked) -> u32
    ensures { result ≡ most_frame_slots class.now }
{
    if declares_init(class) { 1004 } else { 1000 }
}

/// Whether a method has more slots than so many.
fn is_wide(most: u32, body: &Body) -> bool
    ensures { (class : Linked) → most_frame_slots class ≡ most → result ≡ is_wide class body.now }
{
    most < u32::from(body.max_locals) + u32::from(body.max_stack)
}

/// Whether a method is native (JVM Specification 4.6).
fn is_native(body: &Body) -> bool
    ensures { result ≡ is_native body.now }
{
    body.flags & 0x0100 != 0
}

/// Whether a method is synchronized (JVM Specification 4.6).
fn is_synchronized(body: &Body) -> bool
    ensures { result ≡ is_synchronized body.now }
{
    body.flags & 0x0020 != 0
}

/// Whether a method is static, isn't native and has at most so many slots, and its class has no class
/// initialization method.
fn is_plain(class: &Linked, body: &Body, most: u32) -> bool
    ensures { most_frame_slots class.now ≡ most → result ≡ is_plain class.now body.now }
{
    is_static(body.flags) && (!is_native(body) && (!class.has_clinit && !is_wide(most, body)))
}

/// Whether a thread may enter a method of a class. `most` is the most slots that a method of the class may
/// have.
pub fn is_enterable(class: &Linked, body: &Body, most: u32) -> bool
    ensures { most_frame_slots class.now ≡ most → result ≡ is_enterable class.now body.now }
{
    is_plain(class, body, most) && !is_synchronized(body)
}

/// Whether a thread could enter a method of a class if it weren't synchronized, and the method isn't named `$jacocoInit`. `most`
/// is the most slots that a method of the class may have.
pub fn is_locked(class: &Linked, body: &Body, most: u32) -> bool
    ensures { most_frame_slots class.now ≡ most → result ≡ is_locked class.now body.now }
{
    is_plain(class, body, most) && (is_synchronized(body) && !is_init_name(body.name.as_slice()))
}
