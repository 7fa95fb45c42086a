//! How many push constant words a program and its map want of a module.
ghost use Rattle.std.specs.Prelude.{◌≡◌, max};
ghost use Rattle.binding_map.specs.Bindings.{IsMap, IsPlaceFor};
ghost use Rattle.binding_map.specs.Wanted.{push_end, push_words};

use crate::bindings::Bindings;
use crate::register::{Place, Register};
use tpf_program::Program;

/// The push constant words up to the last of those of a register.
fn push_end(program: &Program, register: Register, place: Place) -> u32
    requires { IsPlaceFor register place }
    ensures { result ≡ push_end program.now.shader register place }
{
    match (register, place) {
        (Register::Constant(slot), Place::Push { first, count }) => {
            if program.vectors(slot) > 0 && count > 0 {
                first + count
            } else {
                0
            }
        }
        _ => 0,
    }
}

/// The greater of two words.
fn greater(a: u32, b: u32) -> u32
    ensures { result ≡ max a b }
{
    if a < b { b } else { a }
}

/// The push constant words of a module, in words: those up to the last word of a declared constant buffer that is bound in
/// push constants, and 0 where there is none.
pub fn push_words(program: &Program, bindings: &Bindings) -> u32
    ensures words { result ≡ push_words program.now.shader bindings.now }
    ensures map { IsMap bindings.now }
{
    let mut words = 0;
    for i in 0..bindings.len() {
        let (register, place) = bindings.at(i);
        let end = push_end(program, register, place);
        let next = greater(words, end);
        words = next;
    }
    words
}
