//! Runs of bytes of one class.
ghost use Rattle.std.specs.Prelude.{◌≡◌, ◌≤◌, length};
ghost use Rattle.std.specs.List.{prefix_len};
ghost use Rattle.scanner.specs.Classes.{holds};

use symbols::Base;

/// The bytes that a run may hold.
// An enum and no closure: a contract names the class, and needs no law of a test that is passed.
#[derive(Clone, Copy)]
pub enum Class {
    Letter,
    NameByte,
    Digit,
    DigitIn(Base),
    Space,
    StringByte,
    CommentByte,
}

impl Class {
    pub fn has(self, b: u8) -> bool
        ensures { result ≡ holds self b }
    {
        match (self, char::from(b)) {
            (Class::Letter | Class::NameByte, 'A'..='Z' | 'a'..='z') => true,
            (Class::NameByte, '0'..='9' | '_') => true,
            (Class::Digit, '0'..='9') => true,
            (Class::DigitIn(Base::Binary), '0'..='1') => true,
            (Class::DigitIn(Base::Octal), '0'..='7') => true,
            (Class::DigitIn(Base::Hexadecimal), '0'..='9' | 'A'..='F') => true,
            (Class::Space, ' ') => true,
            (Class::StringByte, ' '..='!' | '%'..='~') => true,
            (Class::CommentByte, '\t' | ' '..='$' | '&'..='~') => true,
            _ => false,
        }
    }
}

/// How many bytes of the class the text begins with.
pub fn run(text: &[u8], class: Class) -> usize
    ensures is { result ≡ prefix_len (holds class) text.now }
    ensures fits { result ≤ length text.now }
{
    text.iter().take_while(|b| class.has(**b)).count()
}
