//! The versions of the bytes of cells and pages.
ghost use Rattle.std.specs.Prelude.{◌≡◌, nat_le};
ghost use Rattle.std.specs.Int.{Width};
ghost use Rattle.std.specs.List.{list_all};
ghost use mir.Val.{bits};
ghost use Rattle.rr_schema.specs.Added.{IsAddition, older};
ghost use Rattle.rr_page.specs.Version.{version_byte, mask_width, has_masks_for};

use rr_schema::{Addition, ArchiveSpec, Schema};

/// How cells and pages are laid out as bytes.
#[derive(Clone, Copy, Debug, PartialEq, Eq)]
pub enum Version {
    /// A mask has eight bytes. It is read, but no longer written.
    One,
    /// A mask has sixteen bytes.
    Two,
}

/// The version that is written.
pub const LATEST: Version = Version::Two;

impl Version {
    /// Its byte in a page.
    pub fn byte(self) -> u8
        ensures { result ≡ version_byte self }
    {
        match self {
            Version::One => 1,
            Version::Two => 2,
        }
    }

    /// How many bits a mask has.
    fn mask_bits(self) -> u32
        ensures { result ≡ bits (mask_width self) }
    {
        match self {
            Version::One => u64::BITS,
            Version::Two => u128::BITS,
        }
    }

    /// Whether a mask has a bit for each step of each of these archives.
    fn has_masks_in(self, archives: &[ArchiveSpec]) -> bool
        ensures { result ≡ list_all (λ a. nat_le a.steps (bits (mask_width self))) archives.now }
    {
        let bits = self.mask_bits();
        archives
            .iter()
            .all(|archive: &ArchiveSpec| archive.steps <= bits)
    }

    /// Whether a mask has a bit for each step of each archive of a schema.
    pub fn has_masks_for(self, schema: &Schema) -> bool
        ensures { result ≡ has_masks_for self schema.now }
    {
        self.has_masks_in(schema.archives())
    }

    /// Whether a mask has a bit for each step of each archive that a schema had before an addition.
    pub fn had_masks_for(self, schema: &Schema, addition: Addition) -> bool
        requires { IsAddition schema.now addition }
        ensures { result ≡ has_masks_for self (older schema.now addition) }
    {
        match addition {
            Addition::Nothing => self.has_masks_for(schema),
            Addition::Archive(number) => {
                let archives = schema.archives();
                let number = number as usize;
                self.has_masks_in(&archives[..number]) && self.has_masks_in(&archives[number + 1..])
            }
        }
    }
}
