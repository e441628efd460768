ghost use Rattle.std.specs.Prelude.{◌≡◌, ℕ};
ghost use Rattle.fb_regions.specs.declared.roles.Role.{Role};

use crate::NodeId;

/// What becomes of an outer node when trees grow: a plus node grows, a minus node shrinks, all others stay.
#[derive(Clone, Copy, Debug, PartialEq, Eq)]
pub enum Role {
    Plus,
    Minus,
    Out,
}

/// The roles of the outer nodes.
pub trait Roles {
    ghost role_of: { Self → ℕ → Role };

    fn role(&self, node: NodeId) -> Role
        ensures { result ≡ role_of self.now node };
}
