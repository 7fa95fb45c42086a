ghost use Rattle.std.specs.Prelude.{◌≡◌, Option};
ghost use Rattle.tpf_decode.specs.Profiles.{Base};
ghost use Rattle.tpf_decode.specs.Declarations.{layout_of};

use crate::argument::{Kind, Role};

/// What follows the tokens of a declaration's opcode.
#[derive(Clone, Copy, Debug, PartialEq, Eq)]
pub struct Layout {
    /// The role of its operand, where it has one.
    pub role: Option<Role>,
    /// The type that its operand must be of, where the opcode fixes it.
    pub kind: Option<Kind>,
    /// The number of words behind the operand.
    pub words: u32,
}

/// What follows the tokens of a declaration, and None where the base profile has no declaration of
/// the opcode.
#[tactic(auto, unfolding(crate::specs::Declarations::layout_of, crate::specs::Declarations::declaration_table))]
pub fn declaration_layout(code: u32) -> Option<Layout>
    ensures { result ≡ layout_of Base code }
{
    match code {
        89 => Some(naming(Kind::Constant, 0)),
        95 => Some(Layout {
            role: Some(Role::Input),
            kind: None,
            words: 0,
        }),
        104 => Some(plain(1)),
        105 | 155 => Some(plain(3)),
        106 => Some(plain(0)),
        157 => Some(naming(Kind::Uav, 0)),
        158 => Some(naming(Kind::Uav, 1)),
        159 => Some(naming(Kind::Shared, 1)),
        160 => Some(naming(Kind::Shared, 2)),
        161 => Some(naming(Kind::Resource, 0)),
        162 => Some(naming(Kind::Resource, 1)),
        _ => None,
    }
}

fn naming(kind: Kind, words: u32) -> Layout
    ensures { result ≡ record { role = Some Role.ViewName; kind = Some kind; words = words } }
{
    Layout {
        role: Some(Role::ViewName),
        kind: Some(kind),
        words,
    }
}

fn plain(words: u32) -> Layout
    ensures { result ≡ record { role = None; kind = None; words = words } }
{
    Layout {
        role: None,
        kind: None,
        words,
    }
}
