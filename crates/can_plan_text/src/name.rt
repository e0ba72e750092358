//! The name of a message.
ghost use Rattle.std.specs.Prelude.{◌≤◌};

/// The greatest length of a message's name, in bytes.
pub const LONGEST_NAME: usize = 64;

/// The name of a message.
#[derive(Clone, Copy, Debug)]
pub struct Name {
    store: [u8; LONGEST_NAME],
    size: usize,
    ghost within: { size ≤ 64 },
}

impl Name {
    ghost use Rattle.std.specs.Prelude.{◌≡◌, length};
    ghost use Rattle.can_plan_text.specs.Names.{name_bytes};

    /// Returns the name with these bytes.
    pub(crate) fn of(text: &[u8]) -> Name
        requires { length text.now ≤ 64 }
        ensures { name_bytes result ≡ text.now }
    {
        let mut store = [0; LONGEST_NAME];
        store[..text.len()].copy_from_slice(text);
        Name {
            store,
            size: text.len(),
        }
    }

    /// Returns its characters: 1 to 64 printable ones of ASCII.
    pub fn as_bytes(&self) -> &[u8]
        ensures { result.now ≡ name_bytes self.now }
    {
        &self.store[..self.size]
    }
}
