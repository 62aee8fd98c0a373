//! Numbers as the arguments of a method.
ghost use Rattle.std.specs.Prelude.{◌≡◌};
ghost use Rattle.jc_methods.specs.DescriptorTypes.{base_type, method_type_in};
ghost use Rattle.jc_programs.specs.Entries.{is_argument, are_arguments};

/// What the letters of a descriptor that were read are the front of.
#[derive(Clone, Copy, Debug, PartialEq, Eq)]
pub enum Reading {
    /// Of no type: the next letter begins one.
    Nothing,
    /// Of an array's type: its brackets.
    Brackets,
    /// Of a class's type: a part of its name.
    Name,
}

/// Whether a number is a value of the base type with this letter, which is an integral one.
fn is_argument(letter: u8, number: &i64) -> bool
    ensures { result ≡ is_argument (base_type letter) number.now }
{
    let n = *number;
    match letter {
        b'B' => n >= -128 && n <= 127,
        b'C' => n >= 0 && n <= 65535,
        b'D' | b'F' => false,
        b'I' => n >= -2_147_483_648 && n <= 2_147_483_647,
        b'J' => true,
        b'S' => n >= -32768 && n <= 32767,
        _ => n >= 0 && n <= 1,
    }
}

/// Whether a method with this descriptor (JVM Specification 4.3.3) takes exactly these numbers: as many
/// parameters as numbers, all of integral types, and each number a value of its type.
pub fn takes(desc: &[u8], args: &[i64]) -> bool
    ensures { result ≡ are_arguments (method_type_in desc.now).parameters args.now }
{
    let mut letters = match desc {
        [_, inside @ ..] => inside,
        [] => desc,
    };
    let mut numbers = args;
    let mut reading = Reading::Nothing;
    'letters: while let Some((letter, after)) = letters.split_first() {
        letters = after;
        match reading {
            Reading::Name => {
                if *letter == b';' {
                    return false;
                }
                continue;
            }
            Reading::Nothing | Reading::Brackets => {}
        }
        if *letter == b'[' {
            reading = Reading::Brackets;
            continue;
        }
        if *letter == b'L' {
            reading = Reading::Name;
            continue;
        }
        if *letter == b')' {
            return numbers.is_empty();
        }
        match reading {
            Reading::Nothing => {
                let Some((n, others)) = numbers.split_first() else {
                    return false;
                };
                if !is_argument(*letter, n) {
                    return false;
                }
                numbers = others;
            }
            Reading::Brackets | Reading::Name => return false,
        }
    }
    numbers.is_empty()
}
