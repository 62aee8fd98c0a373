//! The answer to a line.
ghost use Rattle.std.specs.Prelude.{◌≡◌, None, Ok, IfSome};

use jc_bytes::{Fail, Memory, Refusal};
use std::alloc::{AllocError, Global};
use std::fmt::{Debug, Display, Write};
use std::str;

/// The answer to a line, as a call puts it together. Where memory is refused, it is lost as a whole.
#[derive(Drop)]
pub struct Answer {
    text: String,
    /// Whether memory was refused.
    is_lost: bool,
}

impl Answer {
    /// No text.
    pub fn new(alloc: Global) -> Answer {
        Answer {
            text: String::new(alloc),
            is_lost: false,
        }
    }

    /// Whether nothing was put.
    pub fn is_empty(&self) -> bool {
        self.text.is_empty()
    }

    /// The text, unless memory was refused.
    pub fn text(&self) -> Result<&str, AllocError> {
        if self.is_lost {
            return Err(AllocError);
        }
        Ok(self.text.as_str())
    }

    /// Loses the answer, since memory was refused.
    pub fn lose<T>(&mut self) -> Option<T>
        ensures { result ≡ None }
    {
        self.is_lost = true;
        None
    }

    /// Takes note of whether memory was refused.
    fn note(&mut self, outcome: Result<(), AllocError>) {
        if outcome.is_err() {
            self.is_lost = true;
        }
    }

    /// Puts a text.
    pub fn put(&mut self, text: &str) {
        let outcome = self.text.push_str(text);
        self.note(outcome);
    }

    /// Puts a text between what is there and what follows, if something is there.
    pub fn separate(&mut self, between: &str) {
        if !self.is_empty() {
            self.put(between);
        }
    }

    /// Puts a value as it is displayed.
    pub fn show<T: Display>(&mut self, value: &T) {
        let outcome = write!(self.text, "{value}");
        self.note(outcome);
    }

    /// Puts a text, and behind it a value as it is displayed.
    pub fn label<T: Display>(&mut self, label: &str, value: &T) {
        self.put(label);
        self.show(value);
    }

    /// Puts a value as Rust's code spells it.
    pub fn debug<T: Debug>(&mut self, value: &T) {
        let outcome = write!(self.text, "{value:?}");
        self.note(outcome);
    }

    /// Puts a text, and behind it a value as Rust's code spells it.
    pub fn label_debug<T: Debug>(&mut self, label: &str, value: &T) {
        self.put(label);
        self.debug(value);
    }

    /// Puts a value as it is displayed, and that is all.
    pub fn answer<T: Display>(&mut self, value: &T) -> Option<()> {
        self.show(value);
        Some(())
    }

    /// Puts a value as Rust's code spells it, and that is all.
    pub fn answer_debug<T: Debug>(&mut self, value: &T) -> Option<()> {
        self.debug(value);
        Some(())
    }

    /// Puts `0x` and a number in hexadecimal digits.
    pub fn hexadecimal(&mut self, number: u64) {
        let outcome = write!(self.text, "{number:#x}");
        self.note(outcome);
    }

    /// Puts a number in hexadecimal digits.
    pub fn digits(&mut self, number: u64) {
        let outcome = write!(self.text, "{number:x}");
        self.note(outcome);
    }

    /// Puts 1 for each bit that is set, and 0 for each other.
    pub fn bits(&mut self, bits: &[bool]) {
        for bit in bits {
            self.put(if *bit { "1" } else { "0" });
        }
    }

    /// Puts a class id, in sixteen hexadecimal digits.
    pub fn id(&mut self, id: u64) {
        let outcome = write!(self.text, "{id:016x}");
        self.note(outcome);
    }

    /// Puts `0x` and two hexadecimal digits for each byte.
    pub fn bytes_0x(&mut self, bytes: &[u8]) {
        self.put("0x");
        self.bytes(bytes);
    }

    /// Puts two hexadecimal digits for each byte.
    pub fn bytes(&mut self, bytes: &[u8]) {
        for byte in bytes {
            let outcome = write!(self.text, "{byte:02x}");
            self.note(outcome);
        }
    }

    /// Puts a text in quotes, or `0x` and its bytes where it is no UTF-8.
    pub fn quoted(&mut self, bytes: &[u8]) {
        match str::from_utf8(bytes) {
            Ok(text) => self.debug(&text),
            Err(_) => self.bytes_0x(bytes),
        }
    }

    /// Puts a name, or `?` where it is no UTF-8.
    pub fn name(&mut self, name: &[u8]) {
        self.put(str::from_utf8(name).unwrap_or("?"));
    }

    /// Puts four hexadecimal digits for access flags.
    pub fn flags(&mut self, flags: u16) {
        let outcome = write!(self.text, "{flags:04x}");
        self.note(outcome);
    }

    /// Puts the reason of a refusal, its method if it has one, and its place.
    pub fn reason(&mut self, refusal: &Refusal) {
        self.debug(&refusal.kind);
        if let Some(method) = refusal.method {
            self.label(" in method ", &method);
        }
        self.label(" at ", &refusal.place);
    }

    /// Puts that there is a refusal, and its reason.
    pub fn refuse(&mut self, refusal: &Refusal) {
        self.put("refused ");
        self.reason(refusal);
    }

    /// Answers what is wrong with the line, and nothing else.
    pub fn wrong<T>(&mut self, what: &str) -> Option<T>
        ensures { result ≡ None }
    {
        self.text.clear();
        self.put(what);
        None
    }

    /// Answers what is wrong with a word of the line, and nothing else.
    pub fn wrong_word<T>(&mut self, what: &str, word: &str) -> Option<T>
        ensures { result ≡ None }
    {
        self.text.clear();
        self.put(what);
        self.put(" ");
        self.put(word);
        None
    }

    /// Answers that a word is none that is known there, and nothing else.
    pub fn unknown_word<T>(&mut self, word: &str) -> Option<T>
        ensures { result ≡ None }
    {
        self.wrong_word("unknown word", word)
    }

    /// Answers that there is no call of these words, and nothing else.
    pub fn unknown<T>(&mut self, words: &[&str]) -> Option<T>
        ensures { result ≡ None }
    {
        match words {
            [call, ..] => self.unknown_word(call),
            [] => self.wrong("no call"),
        }
    }

    /// What a call answers that wants nothing but memory, unless memory was refused.
    pub fn got<T, E: Into<Memory> + Drop>(&mut self, res: Result<T, E>) -> Option<T>
        ensures { IfSome result (λ value. res ≡ Ok value) }
    {
        match res {
            Ok(value) => Some(value),
            Err(_) => self.lose(),
        }
    }

    /// What a call answers, unless it refuses: then puts why.
    pub fn accepted<T>(&mut self, res: Result<T, Fail<Refusal>>) -> Option<T>
        ensures { IfSome result (λ value. res ≡ Ok value) }
    {
        match res {
            Ok(value) => Some(value),
            Err(Fail::Said(refusal)) => {
                self.refuse(&refusal);
                None
            }
            Err(Fail::Memory) => self.lose(),
        }
    }
}
