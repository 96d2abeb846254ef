//! How a slot names another.
ghost use Rattle.std.specs.Prelude.{◌≡◌, None};
ghost use Rattle.dom_arena.specs.Slots.{target};

/// The number that leads to no slot.
const NOWHERE: u32 = 4_294_967_295;

/// The slot that another names, or none; 4 bytes.
#[derive(Clone, Copy, Debug, PartialEq, Eq)]
pub struct Link {
    /// The slot's number, or 4,294,967,295 for none.
    pub raw: u32,
}

impl Link {
    /// Returns the link to no slot.
    pub fn none() -> Link
        ensures value { result ≡ record { raw = 4294967295 } }
        ensures target { target result ≡ None }
    {
        Link { raw: NOWHERE }
    }

    /// Returns the link to `slot`, which is not the greatest number.
    pub fn to(slot: u32) -> Link
        ensures { result ≡ record { raw = slot } }
    {
        Link { raw: slot }
    }

    /// Returns the slot that the link leads to.
    pub fn get(self) -> Option<u32>
        ensures { result ≡ target self }
    {
        if self.raw == NOWHERE {
            None
        } else {
            Some(self.raw)
        }
    }
}
