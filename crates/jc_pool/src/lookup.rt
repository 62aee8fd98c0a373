//! What the places of a pool name.
ghost use Rattle.std.specs.Prelude.{◌≡◌, ◌↔◌, [], Some, None, IfOk, IfSome, IfNone, IsErr, IsSomeAnd, IsTrue, is_some};
ghost use Rattle.jc_bytes.specs.Descriptor.{IsFieldDescriptor, IsMethodDescriptor};
ghost use Rattle.jc_bytes.specs.Modified.{IsModified};
ghost use Rattle.jc_bytes.specs.Texts.{IsShortText};
ghost use Rattle.jc_pool.specs.Adding.{IsFirst, IsNowhere};
ghost use Rattle.jc_pool.specs.Lookup.{utf8_of, class_name_of, string_of, signature_of, const_in, const_of};
ghost use Rattle.jc_pool.specs.Lookup.{member, judged_member, HasShortTexts, ref_of, dynamic_of, ref_in, reference_of, member_of};
ghost use Rattle.jc_pool.specs.Lookup.{handle_parts, bootstrap_of, number_of};

use crate::entry::Entry;
use crate::index::Naming;
use crate::judged_text::JudgedText;
use crate::{ConstText, Pool};

/// The place has no entry of the kind that was asked for, or the entry names one that isn't of the
/// kind that it has to be (JVM Specification 4.4).
#[derive(Clone, Copy, Debug, PartialEq, Eq)]
pub struct BadIndex;

/// What an entry names as a field, a method or a dynamic constant or call.
#[derive(Clone, Copy, Debug, PartialEq, Eq)]
pub struct MemberText<'a> {
    /// The entry's tag: 9 for a field, 10 and 11 for a method, 17 and 18 for a dynamic constant and call.
    pub tag: u8,
    /// The name of the class, which is empty for the two dynamic tags.
    pub class: &'a [u8],
    /// The name.
    pub name: &'a [u8],
    /// The descriptor.
    pub desc: &'a [u8],
}

/// What a MethodHandle entry names (JVM Specification 4.4.8).
#[derive(Clone, Copy, Debug, PartialEq, Eq)]
pub struct HandleText {
    /// The kind of the handle, which is from 1 to 9 in a class file that the Java machine takes.
    pub kind: u8,
    /// The place of the field or the method.
    pub member: u16,
}

/// What an entry names as a field, a method or a dynamic constant or call, with the forms that its
/// descriptor has.
#[derive(Clone, Copy)]
struct JudgedMember<'a> {
    tag: u8,
    class: &'a [u8],
    name: &'a [u8],
    desc: &'a JudgedText,
}

impl Pool {
    /// The text of the Utf8 entry at a place.
    #[tactic(auto, unfolding(crate::specs::Lookup::utf8_of))]
    fn text_at(&self, place: u16) -> Result<&JudgedText, BadIndex>
        ensures text { IfOk result (λ text. utf8_of self.now place ≡ Some text.now) }
        ensures size { IfOk result (λ text. IsShortText text.now) }
        ensures bad { IsErr result ↔ (utf8_of self.now place ≡ None) }
    {
        match self.entry(place) {
            Some(Entry::Utf8(text)) => Ok(text),
            _ => Err(BadIndex),
        }
    }

    /// The bytes of the Utf8 entry at a place (JVM Specification 4.4.7). They need not be modified
    /// UTF-8.
    ///
    /// # Errors
    ///
    /// `BadIndex` exactly where no Utf8 entry stands at the place.
    pub fn utf8_at(&self, place: u16) -> Result<&[u8], BadIndex>
        ensures text { IfOk result (λ text. utf8_of self.now place ≡ Some text.now) }
        ensures size { IfOk result (λ text. IsShortText text.now) }
        ensures bad { IsErr result ↔ (utf8_of self.now place ≡ None) }
    {
        match self.text_at(place) {
            Ok(text) => Ok(text.as_slice()),
            Err(bad) => Err(bad),
        }
    }

    /// Whether a Utf8 entry stands at a place whose text is modified UTF-8 (JVM Specification
    /// 4.4.7). This looks at no byte of the text.
    pub fn is_modified_at(&self, place: u16) -> bool
        ensures { IsTrue result ↔ IsSomeAnd (utf8_of self.now place) IsModified }
    {
        match self.text_at(place) {
            Ok(text) => text.is_modified(),
            Err(_) => false,
        }
    }

    /// Whether a Utf8 entry stands at a place whose text is the descriptor of a field (JVM
    /// Specification 4.3.2). This looks at no byte of the text.
    pub fn is_field_descriptor_at(&self, place: u16) -> bool
        ensures { IsTrue result ↔ IsSomeAnd (utf8_of self.now place) IsFieldDescriptor }
    {
        match self.text_at(place) {
            Ok(text) => text.is_field_descriptor(),
            Err(_) => false,
        }
    }

    /// Whether a Utf8 entry stands at a place whose text is the descriptor of a method (JVM
    /// Specification 4.3.3). This looks at no byte of the text.
    pub fn is_method_descriptor_at(&self, place: u16) -> bool
        ensures { IsTrue result ↔ IsSomeAnd (utf8_of self.now place) IsMethodDescriptor }
    {
        match self.text_at(place) {
            Ok(text) => text.is_method_descriptor(),
            Err(_) => false,
        }
    }

    /// The name of the Class entry at a place: the bytes of the Utf8 entry that it names (JVM
    /// Specification 4.4.1). They need not be modified UTF-8.
    ///
    /// # Errors
    ///
    /// `BadIndex` exactly where no Class entry stands at the place, or no Utf8 entry at the place
    /// that it names.
    #[tactic(auto, unfolding(crate::specs::Lookup::class_name_of))]
    pub fn class_at(&self, place: u16) -> Result<&[u8], BadIndex>
        ensures name { IfOk result (λ name. class_name_of self.now place ≡ Some name.now) }
        ensures size { IfOk result (λ name. IsShortText name.now) }
        ensures bad { IsErr result ↔ (class_name_of self.now place ≡ None) }
    {
        match self.entry(place) {
            Some(Entry::Class { name }) => self.utf8_at(*name),
            _ => Err(BadIndex),
        }
    }

    /// The text of the String entry at a place: the bytes of the Utf8 entry that it names (JVM
    /// Specification 4.4.3). They need not be modified UTF-8.
    ///
    /// # Errors
    ///
    /// `BadIndex` exactly where no String entry stands at the place, or no Utf8 entry at the place
    /// that it names.
    #[tactic(auto, unfolding(crate::specs::Lookup::string_of))]
    pub fn string_at(&self, place: u16) -> Result<&[u8], BadIndex>
        ensures text { IfOk result (λ text. string_of self.now place ≡ Some text.now) }
        ensures size { IfOk result (λ text. IsShortText text.now) }
        ensures bad { IsErr result ↔ (string_of self.now place ≡ None) }
    {
        match self.entry(place) {
            Some(Entry::String { text }) => self.utf8_at(*text),
            _ => Err(BadIndex),
        }
    }

    /// Whether a Class entry stands at a place whose name is modified UTF-8 (JVM Specification
    /// 4.4.1, 4.4.7). This looks at no byte of the name.
    #[tactic(auto, unfolding(crate::specs::Lookup::class_name_of))]
    pub fn is_class_name_modified(&self, place: u16) -> bool
        ensures { IsTrue result ↔ IsSomeAnd (class_name_of self.now place) IsModified }
    {
        match self.entry(place) {
            Some(Entry::Class { name }) => self.is_modified_at(*name),
            _ => false,
        }
    }

    /// Whether a Class entry of this name stands at a place.
    fn is_class_named(&self, place: u16, name: &[u8]) -> bool
        ensures { IsTrue result ↔ (class_name_of self.now place ≡ Some name.now) }
    {
        match self.class_at(place) {
            Ok(found) => found == name,
            Err(_) => false,
        }
    }

    /// The first place of a Class entry of this name, for which all places are looked at.
    fn look_for_class(&self, name: &[u8]) -> Option<u16>
        ensures first { IfSome result (IsFirst (class_name_of self.now) name.now) }
        ensures none { IfNone result (IsNowhere (class_name_of self.now) name.now) }
    {
        'finding: for place in 0..self.count() {
            if self.is_class_named(place, name) {
                return Some(place);
            }
        }
        None
    }

    /// The first place of a Class entry of this name (JVM Specification 4.4.1), exactly where there
    /// is one. From the first call on that adds an entry it is found by hash.
    pub fn find_class(&self, name: &[u8]) -> Option<u16>
        ensures first { IfSome result (IsFirst (class_name_of self.now) name.now) }
        ensures none { IfNone result (IsNowhere (class_name_of self.now) name.now) }
    {
        match self.index() {
            Some(index) => index.naming_place(Naming::Class, index.text_place(name)),
            None => self.look_for_class(name),
        }
    }

    /// The name and the descriptor of the NameAndType entry at a place (JVM Specification 4.4.6).
    #[tactic(auto, unfolding(crate::specs::Lookup::signature_of))]
    fn signature(&self, place: u16) -> Result<(&[u8], &JudgedText), BadIndex>
        ensures texts { IfOk result (λ s. signature_of self.now place ≡ Some (record { name = s.0.now; desc = s.1.now })) }
        ensures name { IfOk result (λ s. IsShortText s.0.now) }
        ensures desc { IfOk result (λ s. IsShortText s.1.now) }
        ensures bad { IsErr result ↔ (signature_of self.now place ≡ None) }
    {
        match self.entry(place) {
            Some(Entry::NameAndType { name, descriptor }) => {
                let name = self.utf8_at(*name)?;
                let desc = self.text_at(*descriptor)?;
                Ok((name, desc))
            }
            _ => Err(BadIndex),
        }
    }

    /// The texts of a member of a class, whose entry has this tag.
    #[tactic(auto, unfolding(crate::specs::Lookup::ref_of))]
    fn reference(
        &self,
        tag: u8,
        class: u16,
        name_and_type: u16,
    ) -> Result<JudgedMember<'_>, BadIndex>
        ensures texts { IfOk result (λ m. ref_of self.now tag class name_and_type ≡ Some (judged_member m)) }
        ensures sizes { IfOk result (λ m. HasShortTexts (judged_member m)) }
        ensures bad { IsErr result ↔ (ref_of self.now tag class name_and_type ≡ None) }
    {
        let class = self.class_at(class)?;
        let (name, desc) = self.signature(name_and_type)?;
        Ok(JudgedMember {
            tag,
            class,
            name,
            desc,
        })
    }

    /// The texts of a dynamic constant or call, whose entry has this tag.
    #[tactic(auto, unfolding(crate::specs::Lookup::dynamic_of))]
    fn dynamic(&self, tag: u8, name_and_type: u16) -> Result<JudgedMember<'_>, BadIndex>
        ensures texts { IfOk result (λ m. dynamic_of self.now tag name_and_type ≡ Some (judged_member m)) }
        ensures sizes { IfOk result (λ m. HasShortTexts (judged_member m)) }
        ensures bad { IsErr result ↔ (dynamic_of self.now tag name_and_type ≡ None) }
    {
        let (name, desc) = self.signature(name_and_type)?;
        Ok(JudgedMember {
            tag,
            class: &[],
            name,
            desc,
        })
    }

    /// The texts of a field or a method.
    fn reference_in<'a>(&'a self, entry: &Entry) -> Result<JudgedMember<'a>, BadIndex>
        ensures texts { IfOk result (λ m. ref_in self.now entry.now ≡ Some (judged_member m)) }
        ensures sizes { IfOk result (λ m. HasShortTexts (judged_member m)) }
        ensures bad { IsErr result ↔ (ref_in self.now entry.now ≡ None) }
    {
        match entry {
            Entry::Fieldref {
                class,
                name_and_type,
            } => self.reference(9, *class, *name_and_type),
            Entry::Methodref {
                class,
                name_and_type,
            } => self.reference(10, *class, *name_and_type),
            Entry::InterfaceMethodref {
                class,
                name_and_type,
            } => self.reference(11, *class, *name_and_type),
            _ => Err(BadIndex),
        }
    }

    /// What the entry at a place names as a field, a method, or a dynamic constant or call.
    #[tactic(auto, unfolding(crate::specs::Lookup::member_of))]
    fn judged_member(&self, place: u16) -> Result<JudgedMember<'_>, BadIndex>
        ensures texts { IfOk result (λ m. member_of self.now place ≡ Some (judged_member m)) }
        ensures sizes { IfOk result (λ m. HasShortTexts (judged_member m)) }
        ensures bad { IsErr result ↔ (member_of self.now place ≡ None) }
    {
        match self.entry(place) {
            Some(Entry::Dynamic { name_and_type, .. }) => self.dynamic(17, *name_and_type),
            Some(Entry::InvokeDynamic { name_and_type, .. }) => self.dynamic(18, *name_and_type),
            Some(entry) => self.reference_in(entry),
            None => Err(BadIndex),
        }
    }

    /// What the entry at a place names as a field, a method, or a dynamic constant or call (JVM
    /// Specification 4.4.2, 4.4.10).
    ///
    /// # Errors
    ///
    /// `BadIndex` exactly where the place has no entry of these five kinds, or a place that the
    /// entry names has no Class entry with a name (for the three kinds of members), or no
    /// NameAndType entry with a name and a descriptor.
    pub fn member_at(&self, place: u16) -> Result<MemberText<'_>, BadIndex>
        ensures texts { IfOk result (λ m. member_of self.now place ≡ Some (member m)) }
        ensures sizes { IfOk result (λ m. HasShortTexts (member m)) }
        ensures bad { IsErr result ↔ (member_of self.now place ≡ None) }
    {
        match self.judged_member(place) {
            Ok(m) => Ok(MemberText {
                tag: m.tag,
                class: m.class,
                name: m.name,
                desc: m.desc.as_slice(),
            }),
            Err(bad) => Err(bad),
        }
    }

    /// Whether what `member_at` finds at a place has the descriptor of a field (JVM Specification
    /// 4.3.2). This looks at no byte of the descriptor.
    pub fn has_field_descriptor(&self, place: u16) -> bool
        ensures { IsTrue result ↔ IsSomeAnd (member_of self.now place) (λ m. IsFieldDescriptor m.desc) }
    {
        match self.judged_member(place) {
            Ok(m) => m.desc.is_field_descriptor(),
            Err(_) => false,
        }
    }

    /// Whether what `member_at` finds at a place has the descriptor of a method (JVM Specification
    /// 4.3.3). This looks at no byte of the descriptor.
    pub fn has_method_descriptor(&self, place: u16) -> bool
        ensures { IsTrue result ↔ IsSomeAnd (member_of self.now place) (λ m. IsMethodDescriptor m.desc) }
    {
        match self.judged_member(place) {
            Ok(m) => m.desc.is_method_descriptor(),
            Err(_) => false,
        }
    }

    /// Whether a field or a method stands at a place, with all that it names.
    #[tactic(auto, unfolding(crate::specs::Lookup::reference_of))]
    fn has_reference(&self, place: u16) -> bool
        ensures { result ≡ is_some (reference_of self.now place) }
    {
        match self.entry(place) {
            Some(entry) => self.reference_in(entry).is_ok(),
            None => false,
        }
    }

    /// The constant that an entry stands for, if what it names stands there.
    fn const_in(&self, entry: &Entry) -> Result<ConstText, BadIndex>
        ensures kind { IfOk result (λ c. const_in self.now entry.now ≡ Some c) }
        ensures bad { IsErr result ↔ (const_in self.now entry.now ≡ None) }
    {
        let (constant, named) = match entry {
            Entry::Integer(value) => (ConstText::Int(*value), true),
            Entry::Float(_) => (ConstText::Float, true),
            Entry::Long(value) => (ConstText::Long(*value), true),
            Entry::Double(_) => (ConstText::Double, true),
            Entry::Class { name } => (ConstText::Class, self.utf8_at(*name).is_ok()),
            Entry::String { text } => (ConstText::Text, self.utf8_at(*text).is_ok()),
            Entry::MethodHandle { reference, .. } => {
                (ConstText::Handle, self.has_reference(*reference))
            }
            Entry::MethodType { descriptor } => {
                (ConstText::MethodKind, self.utf8_at(*descriptor).is_ok())
            }
            Entry::Dynamic { name_and_type, .. } => {
                (ConstText::Computed, self.signature(*name_and_type).is_ok())
            }
            _ => return Err(BadIndex),
        };
        if named { Ok(constant) } else { Err(BadIndex) }
    }

    /// The constant at a place, of the kinds that an instruction can load (JVM Specification 4.4,
    /// table 4.4-C).
    ///
    /// # Errors
    ///
    /// `BadIndex` exactly where the place has no entry of these kinds, or what the entry names is
    /// not there: the text of a string, the name of a class, the descriptor of a method's type, the
    /// name and the descriptor of a dynamic constant, or the member of a method handle, with all
    /// that the member names.
    #[tactic(auto, unfolding(crate::specs::Lookup::const_of))]
    pub fn const_at(&self, place: u16) -> Result<ConstText, BadIndex>
        ensures kind { IfOk result (λ c. const_of self.now place ≡ Some c) }
        ensures bad { IsErr result ↔ (const_of self.now place ≡ None) }
    {
        match self.entry(place) {
            Some(entry) => self.const_in(entry),
            None => Err(BadIndex),
        }
    }

    /// The kind of the MethodHandle entry at a place, and the place of the field or the method that
    /// it names (JVM Specification 4.4.8), which has an entry of tag 9, 10 or 11.
    ///
    /// # Errors
    ///
    /// `BadIndex` exactly where no MethodHandle entry stands at the place, or no field or method, with
    /// its class, name and descriptor, at the place that it names.
    #[tactic(auto, unfolding(crate::specs::Lookup::handle_parts))]
    pub fn handle_at(&self, place: u16) -> Result<HandleText, BadIndex>
        ensures parts { IfOk result (λ h. handle_parts self.now place ≡ Some (h.kind, h.member)) }
        ensures bad { IsErr result ↔ (handle_parts self.now place ≡ None) }
    {
        match self.entry(place) {
            Some(Entry::MethodHandle { kind, reference }) => {
                if !self.has_reference(*reference) {
                    return Err(BadIndex);
                }
                Ok(HandleText {
                    kind: *kind,
                    member: *reference,
                })
            }
            _ => Err(BadIndex),
        }
    }

    /// The number of the bootstrap method of the Dynamic or InvokeDynamic entry at a place (JVM
    /// Specification 4.4.10).
    ///
    /// # Errors
    ///
    /// `BadIndex` exactly where none of these stands at the place, or no NameAndType entry with a name
    /// and a descriptor at the place that it names.
    #[tactic(auto, unfolding(crate::specs::Lookup::bootstrap_of))]
    pub fn bootstrap_at(&self, place: u16) -> Result<u16, BadIndex>
        ensures number { IfOk result (λ n. bootstrap_of self.now place ≡ Some n) }
        ensures bad { IsErr result ↔ (bootstrap_of self.now place ≡ None) }
    {
        let (bootstrap, name_and_type) = match self.entry(place) {
            Some(
                Entry::Dynamic {
                    bootstrap,
                    name_and_type,
                },
            ) => (*bootstrap, *name_and_type),
            Some(
                Entry::InvokeDynamic {
                    bootstrap,
                    name_and_type,
                },
            ) => (*bootstrap, *name_and_type),
            _ => return Err(BadIndex),
        };
        match self.signature(name_and_type) {
            Ok(_) => Ok(bootstrap),
            Err(bad) => Err(bad),
        }
    }

    /// The same number, whether a NameAndType entry stands at the place that the entry names or not,
    /// or `None` where neither a Dynamic nor an InvokeDynamic entry stands at the place.
    #[tactic(auto, unfolding(crate::specs::Lookup::number_of))]
    pub fn bootstrap_number(&self, place: u16) -> Option<u16>
        ensures { result ≡ number_of self.now place }
    {
        match self.entry(place) {
            Some(Entry::Dynamic { bootstrap, .. }) => Some(*bootstrap),
            Some(Entry::InvokeDynamic { bootstrap, .. }) => Some(*bootstrap),
            _ => None,
        }
    }
}
