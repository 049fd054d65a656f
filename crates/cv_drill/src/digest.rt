ghost use Rattle.std.specs.Prelude.{◌≡◌};
ghost use Rattle.cv_drill.specs.Images.{role_digest, role_byte};

use cv_base::Digest;

/// What a digest of the drill stands for.
#[derive(Clone, Copy, Debug, PartialEq, Eq)]
pub enum Role {
    /// A layer with the system's name and a database of packages.
    System,
    /// A layer with another database of packages.
    Database,
    /// A layer with modules of npm.
    Modules,
    /// A layer that hides the modules below it.
    Opaque,
    /// An image.
    Image,
}

impl Role {
    /// The first byte of its digests.
    fn byte(self) -> u8
        ensures { result ≡ role_byte self }
    {
        match self {
            Role::System => 0,
            Role::Database => 1,
            Role::Modules => 2,
            Role::Opaque => 3,
            Role::Image => 255,
        }
    }

    /// The digest of this role and a number.
    pub fn digest(self, number: u32) -> Digest
        ensures { result ≡ role_digest self number }
    {
        let [a, b, c, d] = number.to_be_bytes();
        Digest::of([
            self.byte(),
            a,
            b,
            c,
            d,
            0,
            0,
            0,
            0,
            0,
            0,
            0,
            0,
            0,
            0,
            0,
            0,
            0,
            0,
            0,
            0,
            0,
            0,
            0,
            0,
            0,
            0,
            0,
            0,
            0,
            0,
            0,
        ])
    }
}
