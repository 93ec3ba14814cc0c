//! Frames that are built part by part.
ghost use Rattle.std.specs.Prelude.{◌≡◌, ◌+◌, ◌≤◌, [], ◌++◌, length};

use std::marker::Model;

/// The front of a frame of `N` bytes, filled so far.
#[derive(Drop)]
pub struct Filling<const N: usize> {
    bytes: [u8; N],
    filled: usize,
}

impl<const N: usize> Model for Filling<N> {
    ghost use Rattle.std.specs.Prelude.{ℕ, List, take, length, ◌≤◌, ◌≡◌};

    ghost Value = { List ℕ };

    ghost view = { λ f. take f.filled f.bytes };

    ghost invariant = { λ f. (length f.bytes ≡ N) × (f.filled ≤ N) };
}

impl<const N: usize> Filling<N> {
    /// Nothing is filled.
    pub fn new() -> Self
        ensures { result ≡ [] }
    {
        Filling {
            bytes: [0; N],
            filled: 0,
        }
    }

    /// Adds bytes after those that are there.
    pub fn put(&mut self, bytes: &[u8])
        requires { length self.old + length bytes.now ≤ N }
        ensures { self.new ≡ self.old ++ bytes.now }
    {
        let end = self.filled + bytes.len();
        let frame = &mut self.bytes[..];
        frame[self.filled..end].copy_from_slice(bytes);
        self.filled = end;
    }

    /// The whole frame.
    pub fn whole(self) -> [u8; N]
        requires { length self ≡ N }
        ensures { result ≡ self.entry }
    {
        self.bytes
    }
}
