ghost use Rattle.std.specs.Prelude.{◌≡◌, ℕ, List, ◌++◌};
ghost use Rattle.streams.specs.Sources.{Got};

/// A source means the list of bytes that wait.
// No `Iterator`: its `next` may ask a `requires` of its caller, and may give items again after None.
pub trait Source {
    ghost waiting: { Self → List ℕ };

    /// Takes the first byte that waits. Where none waits, the answer is None and nothing changes.
    fn get(&mut self) -> Option<u8>
        ensures { Got result (waiting self.old) (waiting self.new) };
}

/// Bytes that are handed in.
#[derive(Drop)]
pub struct Bytes<'a> {
    rest: &'a [u8],
}

impl<'a> Bytes<'a> {
    /// All of `bytes` wait.
    pub fn new(bytes: &'a [u8]) -> Bytes<'a>
        ensures { result.rest.now ≡ bytes.now }
    {
        Bytes { rest: bytes }
    }
}

impl<'a> Source for Bytes<'a> {
    ghost waiting = { λ s. s.rest.now };

    fn get(&mut self) -> Option<u8> {
        let (first, rest) = self.rest.split_first()?;
        self.rest = rest;
        Some(*first)
    }
}

/// One source after another: the second is asked once nothing waits in the first.
#[derive(Drop)]
pub struct Chain<A1, B1> {
    first: A1,
    second: B1,
}

impl<A1: Source, B1: Source> Chain<A1, B1> {
    pub fn new(first: A1, second: B1) -> Chain<A1, B1>
        ensures { (result.first ≡ first) × (result.second ≡ second) }
    {
        Chain { first, second }
    }
}

impl<A1: Source, B1: Source> Source for Chain<A1, B1> {
    ghost waiting = { λ s. A1.Source.waiting s.first ++ B1.Source.waiting s.second };

    fn get(&mut self) -> Option<u8> {
        // `or_else` with a closure that asks the second was tried: its contract does not say what that becomes.
        match self.first.get() {
            Some(b) => Some(b),
            None => self.second.get(),
        }
    }
}
