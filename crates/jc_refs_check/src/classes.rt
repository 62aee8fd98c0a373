//! The classes that types name by their numbers.
ghost use Rattle.std.specs.Prelude.{◌≡◌, ◌<◌, bytes_eq, length, IfOk, OnOk};
ghost use Rattle.jc_refs_check.specs.Suits.{object_class, class_suits};
ghost use Rattle.jc_refs_check.specs.Known.{known_by};
ghost use Rattle.jc_refs_check.specs.KnownSuits.{is_above, is_object_known};
ghost use Rattle.jc_refs_check.specs.Classes.{name_at, AreKnown, AreFirstKnown};

use crate::known::{Known, known_of};
use jc_bytes::{Memory, Names};
use jc_machine_code::extends;
use std::alloc::Global;

/// Names of classes, and what each tells of its class.
#[derive(Debug, Drop)]
pub struct Classes {
    pub names: Names,
    pub known: Vec<Known>,
}

/// The same names, under the same numbers.
fn copied(alloc: Global, names: &Names) -> Result<Names, Memory>
    ensures { IfOk result (λ copy. copy ≡ names.now) }
{
    let mut copy = Names::new(alloc)?;
    'copying: for number in 0..names.len() {
        copy.number(alloc, names.text(number))?;
    }
    Ok(copy)
}

/// Whether a class of which this is known is the superclass of all classes, or one of the other's, or the other itself.
fn is_above(above: Known, below: Known) -> bool
    ensures { result ≡ is_above above below }
{
    match above {
        Known::Object => true,
        Known::Throwable(thrown) => match below {
            Known::Throwable(other) => extends(other, thrown),
            Known::Object | Known::Array(_) | Known::PrintStream => false,
            Known::Text | Known::Other => false,
        },
        Known::Array(_) | Known::PrintStream | Known::Text | Known::Other => false,
    }
}

/// Whether a class of which this is known is `java/lang/Object`.
fn is_object_known(known: Known) -> bool
    ensures { result ≡ is_object_known known }
{
    match known {
        Known::Object => true,
        Known::Throwable(_) | Known::Array(_) | Known::PrintStream => false,
        Known::Text | Known::Other => false,
    }
}

impl Classes {
    /// The classes with these names, under the same numbers.
    ///
    /// # Errors
    ///
    /// `Memory` where memory was refused.
    pub fn of(alloc: Global, names: &Names) -> Result<Classes, Memory>
        ensures names { IfOk result (λ classes. classes.names ≡ names.now) }
        ensures known { IfOk result AreKnown }
    {
        let mut classes = Classes {
            names: copied(alloc, names)?,
            known: Vec::new(alloc),
        };
        classes.learn()?;
        Ok(classes)
    }

    /// Reads the names that were numbered since.
    ///
    /// # Errors
    ///
    /// `Memory` where memory was refused.
    pub fn learn(&mut self) -> Result<(), Memory>
        requires { AreFirstKnown self.old }
        ensures names { self.new.names ≡ self.old.names }
        ensures known { OnOk result (AreKnown self.new) }
    {
        let count = self.names.len();
        let read = self.known.len();
        'learning: for number in read as u32..count {
            let known = known_of(self.names.text(number));
            self.known.push(known)?;
        }
        Ok(())
    }

    /// How many there are.
    pub fn len(&self) -> usize
        requires { AreKnown self.now }
        ensures { result ≡ length self.now.names }
    {
        self.known.len()
    }

    /// What is known of a class.
    pub fn known_at(&self, class: u32) -> Known
        requires { AreKnown self.now }
        ensures { result ≡ known_by (name_at self.now.names class) }
    {
        match self.known.get(class as usize) {
            Some(known) => *known,
            None => Known::Other,
        }
    }

    /// Whether an object of the class may stand where one of the other class is expected.
    pub fn suits(&self, class: u32, other: u32) -> bool
        requires known { AreKnown self.now }
        requires class { class < length self.now.names }
        requires other { other < length self.now.names }
        ensures { result ≡ class_suits (name_at self.now.names class) (name_at self.now.names other) }
    {
        if class == other {
            return true;
        }
        is_above(self.known_at(other), self.known_at(class))
    }

    /// Whether the class is `java/lang/Object`.
    pub fn is_object(&self, class: u32) -> bool
        requires { AreKnown self.now }
        ensures { result ≡ bytes_eq (name_at self.now.names class) object_class }
    {
        is_object_known(self.known_at(class))
    }
}
