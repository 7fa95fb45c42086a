ghost use Rattle.std.specs.Prelude.{◌≡◌, false, [], option_map};
ghost use Rattle.tpf_program.specs.Sizes.{addressing_of, addressing_declared, of_view, of_shared};
ghost use Rattle.tpf_program.specs.Views.{room_by};
ghost use Rattle.binding_map.specs.Fits.{is_null_in};
ghost use Rattle.raise_views.specs.Guarding.{known_words};

use binding_map::{Bindings, Register};
use tpf_program::{Declaration, Kind, Program, SharedKind, ViewKind};
use word_base::Room;

/// How the words of a room are reached.
#[derive(Clone, Copy, Debug, PartialEq, Eq)]
pub(crate) enum Way {
    /// By bytes.
    Bytes,
    /// By structures of that many words.
    Structures(u32),
    /// By words.
    Words,
}

/// An address whose words are known, or are kept in scratch words.
#[derive(Clone, Copy, Debug, PartialEq, Eq)]
pub(crate) struct Address {
    /// How it is counted.
    pub(crate) way: Way,
    /// Its word, where that is known: in the structure, or in the room.
    pub(crate) word: Option<u32>,
    /// The index of its structure, where that is known.
    pub(crate) index: Option<u32>,
}

/// Where an instruction reaches a room.
#[derive(Clone, Copy, Debug, PartialEq, Eq)]
pub(crate) struct Reach {
    /// The room.
    pub(crate) room: Room,
    /// The number of words that it has in any setting.
    pub(crate) known: u64,
    /// The address.
    pub(crate) address: Address,
}

/// How shared memory is reached, as a view is.
fn view_of(kind: SharedKind) -> ViewKind
    ensures { of_view false result ≡ of_shared kind }
{
    match kind {
        SharedKind::Raw { .. } => ViewKind::Raw,
        SharedKind::Structured { stride, .. } => ViewKind::Structured { stride },
    }
}

/// How a declaration says that the view of that kind and slot is reached, where it is of that view.
fn declared_view(what: Declaration, kind: Kind, slot: u32) -> Option<ViewKind>
    ensures { option_map (of_view false) result ≡ addressing_declared [] kind slot what }
{
    match (what, kind) {
        (Declaration::Resource { slot: other, view }, Kind::Resource)
        | (
            Declaration::Uav {
                slot: other,
                view,
                ..
            },
            Kind::Uav,
        ) if other == slot => Some(view),
        (
            Declaration::Shared {
                slot: other,
                kind: memory,
            },
            Kind::Shared,
        ) if other == slot => Some(view_of(memory)),
        _ => None,
    }
}

/// How the view of that kind and slot is reached: as its first declaration says.
pub(crate) fn view(program: &Program, kind: Kind, slot: u32) -> ViewKind
    ensures { of_view false result ≡ addressing_of [] kind slot program.now.shader.declarations }
{
    for i in 0..program.declarations() {
        if let Some(view) = declared_view(program.declaration(i).what, kind, slot) {
            return view;
        }
    }
    ViewKind::Raw
}

/// The room of a view or of shared memory.
pub(crate) fn room_of(kind: Kind, slot: u32) -> Room
    ensures { result ≡ room_by kind slot }
{
    match kind {
        Kind::Resource => Room::Resource(slot),
        Kind::Shared => Room::Shared(slot),
        _ => Room::Uav(slot),
    }
}

/// Whether a room is null: a view or a counter that has no binding.
pub(crate) fn is_null(bindings: &Bindings, room: Room) -> bool
    ensures { result ≡ is_null_in bindings.now room }
{
    match room {
        Room::Resource(slot) => bindings.place_of(Register::Resource(slot)).is_none(),
        Room::Uav(slot) => bindings.place_of(Register::Uav(slot)).is_none(),
        Room::Counter(slot) => bindings.place_of(Register::Counter(slot)).is_none(),
        Room::Shared(_) => false,
    }
}

/// How many words a room has in any setting: those of shared memory are declared.
pub(crate) fn known_words(program: &Program, room: Room) -> u64
    ensures { result ≡ known_words program.now.shader room }
{
    match room {
        Room::Shared(slot) => program.shared_words(slot),
        _ => 0,
    }
}
