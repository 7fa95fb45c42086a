//! Symbols as pairs of words, by which they are found.
ghost use Rattle.std.specs.Prelude.{◌≡◌};
ghost use Rattle.spirv_symbols.specs.Names.{number_of_access, key_of_type, key_of, access_at, type_by, other_by, symbol_at};

use crate::symbol::{Access, Symbol, TypeSymbol};
use node_pool::Key;
use word_base::Room;

fn key_with(kind: u32, number: u32) -> Key
    ensures { result ≡ record { kind = kind; number = number } }
{
    Key { kind, number }
}

fn number_of_access(access: Access) -> u32
    ensures { result ≡ number_of_access access }
{
    match access {
        Access::Plain => 0,
        Access::ReadOnly => 1,
        Access::Coherent => 2,
    }
}

fn key_of_type(symbol: TypeSymbol) -> Key
    ensures { result ≡ key_of_type symbol }
{
    match symbol {
        TypeSymbol::Void => key_with(0, 0),
        TypeSymbol::Procedure => key_with(1, 0),
        TypeSymbol::Word => key_with(2, 0),
        TypeSymbol::Truth => key_with(3, 0),
        TypeSymbol::Triple => key_with(4, 0),
        TypeSymbol::Quad => key_with(5, 0),
        TypeSymbol::Pair => key_with(6, 0),
        TypeSymbol::Words(n) => key_with(7, n),
        TypeSymbol::PushWords(n) => key_with(8, n),
        TypeSymbol::Vectors(n) => key_with(9, n),
        TypeSymbol::RuntimeWords => key_with(10, 0),
        TypeSymbol::View(access) => key_with(11, number_of_access(access)),
        TypeSymbol::VectorsBlock(n) => key_with(12, n),
        TypeSymbol::PushBlock(n) => key_with(13, n),
        TypeSymbol::WordPointer(class) => key_with(14, class),
        TypeSymbol::TriplePointer => key_with(15, 0),
        TypeSymbol::LocalPointer(n) => key_with(16, n),
        TypeSymbol::SharedPointer(n) => key_with(17, n),
        TypeSymbol::ViewPointer(access) => key_with(18, number_of_access(access)),
        TypeSymbol::VectorsPointer(n) => key_with(19, n),
        TypeSymbol::PushPointer(n) => key_with(20, n),
    }
}

/// The pair of a symbol.
pub(crate) fn key(symbol: Symbol) -> Key
    ensures { result ≡ key_of symbol }
{
    match symbol {
        Symbol::AType(of) => key_of_type(of),
        Symbol::Constant(word) => key_with(21, word),
        Symbol::True => key_with(22, 0),
        Symbol::Null(n) => key_with(23, n),
        Symbol::Immediates => key_with(24, 0),
        Symbol::Import => key_with(25, 0),
        Symbol::Main => key_with(26, 0),
        Symbol::FirstLabel => key_with(27, 0),
        Symbol::Input(number) => key_with(28, number),
        Symbol::Memory(Room::Resource(slot)) => key_with(29, slot),
        Symbol::Memory(Room::Uav(slot)) => key_with(30, slot),
        Symbol::Memory(Room::Counter(slot)) => key_with(31, slot),
        Symbol::Memory(Room::Shared(slot)) => key_with(32, slot),
        Symbol::Uniform(slot) => key_with(33, slot),
        Symbol::Push => key_with(34, 0),
        Symbol::Scratch(n) => key_with(35, n),
        Symbol::Register(k) => key_with(36, k),
        Symbol::Registers => key_with(37, 0),
        Symbol::Elements(slot) => key_with(38, slot),
        Symbol::ImmediateArray => key_with(39, 0),
    }
}

fn access_at(number: u32) -> Access
    ensures { result ≡ access_at number }
{
    if number == 1 {
        Access::ReadOnly
    } else if number == 2 {
        Access::Coherent
    } else {
        Access::Plain
    }
}

fn type_by(kind: u32, n: u32) -> TypeSymbol
    ensures { result ≡ type_by kind n }
{
    match kind {
        0 => TypeSymbol::Void,
        1 => TypeSymbol::Procedure,
        2 => TypeSymbol::Word,
        3 => TypeSymbol::Truth,
        4 => TypeSymbol::Triple,
        5 => TypeSymbol::Quad,
        6 => TypeSymbol::Pair,
        7 => TypeSymbol::Words(n),
        8 => TypeSymbol::PushWords(n),
        9 => TypeSymbol::Vectors(n),
        10 => TypeSymbol::RuntimeWords,
        11 => TypeSymbol::View(access_at(n)),
        12 => TypeSymbol::VectorsBlock(n),
        13 => TypeSymbol::PushBlock(n),
        14 => TypeSymbol::WordPointer(n),
        15 => TypeSymbol::TriplePointer,
        16 => TypeSymbol::LocalPointer(n),
        17 => TypeSymbol::SharedPointer(n),
        18 => TypeSymbol::ViewPointer(access_at(n)),
        19 => TypeSymbol::VectorsPointer(n),
        _ => TypeSymbol::PushPointer(n),
    }
}

fn other_by(kind: u32, n: u32) -> Symbol
    ensures { result ≡ other_by kind n }
{
    match kind {
        21 => Symbol::Constant(n),
        22 => Symbol::True,
        23 => Symbol::Null(n),
        24 => Symbol::Immediates,
        25 => Symbol::Import,
        26 => Symbol::Main,
        27 => Symbol::FirstLabel,
        28 => Symbol::Input(n),
        29 => Symbol::Memory(Room::Resource(n)),
        30 => Symbol::Memory(Room::Uav(n)),
        31 => Symbol::Memory(Room::Counter(n)),
        32 => Symbol::Memory(Room::Shared(n)),
        33 => Symbol::Uniform(n),
        34 => Symbol::Push,
        35 => Symbol::Scratch(n),
        36 => Symbol::Register(n),
        37 => Symbol::Registers,
        38 => Symbol::Elements(n),
        _ => Symbol::ImmediateArray,
    }
}

/// The symbol of a pair.
pub(crate) fn symbol_at(key: Key) -> Symbol
    ensures { result ≡ symbol_at key }
{
    if key.kind < 21 {
        Symbol::AType(type_by(key.kind, key.number))
    } else {
        other_by(key.kind, key.number)
    }
}
