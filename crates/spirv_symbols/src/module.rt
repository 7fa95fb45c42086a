//! The words of a module around the code of its function.
ghost use Rattle.std.specs.Prelude.{◌≡◌, ◌+◌, ◌<◌, ◌≤◌, ◌++◌, length, Some, IfSome, IfNone, None};
ghost use Rattle.word_base.specs.Settings.{axes};
ghost use Rattle.spirv_words.specs.Sections.{listed_classes};
ghost use Rattle.spirv_words.specs.Text.{words_of_code, words_of_instr};
ghost use Rattle.spirv_symbols.specs.declared.symbol.Section.TheVariants.{Heads, Labels, Locals};
ghost use Rattle.spirv_symbols.specs.Contexts.{IsSmall};
ghost use Rattle.spirv_symbols.specs.Sections.{section_code};
ghost use Rattle.spirv_symbols.specs.ModuleWords.{kind_of, head};
ghost use Rattle.spirv_symbols.specs.Modules.{class_of, is_global, interface, models, front};

use crate::ascending::Ascending;
use crate::context::Context;
use crate::entry::Entry;
use crate::putting::put;
use crate::symbol::{Section, Symbol};
use crate::table::Symbols;
use node_pool::Pool;
use spirv_words::{model, op, storage_class};
use word_base::Room;

/// The version of a module and the threads of its groups.
#[derive(Clone, Copy, Debug, PartialEq, Eq)]
pub struct Kind {
    /// The version of SPIR-V, as a module's second word.
    pub version: u32,
    /// The threads of a group along x.
    pub x: u32,
    /// Along y.
    pub y: u32,
    /// Along z.
    pub z: u32,
}

/// The storage class of a global variable.
fn class_of(symbol: Symbol) -> Option<u32>
    ensures found { IfSome result (λ class. class_of symbol ≡ Some class) }
    ensures absent { IfNone result (class_of symbol ≡ None) }
{
    match symbol {
        Symbol::Input(_) => Some(storage_class::INPUT),
        Symbol::Memory(Room::Shared(_)) => Some(storage_class::WORKGROUP),
        Symbol::Memory(_) => Some(storage_class::STORAGE_BUFFER),
        Symbol::Uniform(_) => Some(storage_class::UNIFORM),
        Symbol::Push => Some(storage_class::PUSH_CONSTANT),
        _ => None,
    }
}

/// Whether the entry point lists a variable.
fn is_listed(version: u32, entry: Entry) -> bool
    ensures { result ≡ is_global (listed_classes version) entry }
{
    match class_of(entry.symbol) {
        Some(class) => class == storage_class::INPUT || version == model::VERSION_1_4,
        None => false,
    }
}

/// The number of variables that the entry point lists.
fn listed(symbols: &Symbols, version: u32) -> u32
    ensures { result ≡ length (interface version symbols.now.entries) }
{
    let mut count = 0;
    for k in 0..symbols.len() {
        if is_listed(version, symbols.entry(k)) {
            count += 1;
        }
    }
    count
}

/// Writes the ids of the variables that the entry point lists.
fn put_listed(symbols: &Symbols, version: u32, words: &mut Pool<u32>)
    requires room { length words.old.list + length (interface version symbols.now.entries) ≤ words.old.capacity }
    ensures list { words.new.list ≡ words.old.list ++ interface version symbols.now.entries }
    ensures capacity { words.new.capacity ≡ words.old.capacity }
{
    for k in 0..symbols.len() {
        let entry = symbols.entry(k);
        if is_listed(version, entry) {
            words.push(entry.id);
        }
    }
}

/// Writes the memory model, the entry point and the size of its groups.
fn put_models(symbols: &Symbols, kind: Kind, words: &mut Pool<u32>)
    requires few { length (interface kind.version symbols.now.entries) < 65000 }
    requires room { length words.old.list + length
        (interface kind.version symbols.now.entries) + 14 ≤ words.old.capacity }
    ensures list { words.new.list ≡ words.old.list ++ words_of_code (models (kind_of kind) symbols.now.entries) }
    ensures capacity { words.new.capacity ≡ words.old.capacity }
{
    let main = symbols.id(Symbol::Main);
    put(words, op::MEMORY_MODEL, &[model::LOGICAL, model::GLSL450]);
    words.push(65536 * (listed(symbols, kind.version) + 5) + op::ENTRY_POINT);
    words.push(model::GL_COMPUTE);
    words.push(main);
    words.push(model::MAIN[0]);
    words.push(model::MAIN[1]);
    put_listed(symbols, kind.version, words);
    put(
        words,
        op::EXECUTION_MODE,
        &[main, model::LOCAL_SIZE, kind.x, kind.y, kind.z],
    );
}

impl Symbols {
    /// Writes all that stands in front of the function of a module.
    ///
    /// There must be room for it behind the words.
    pub fn put_front(
        &self,
        context: &Context,
        kind: Kind,
        constants: &Ascending,
        words: &mut Pool<u32>,
    )
        requires small { IsSmall context.now }
        requires few { length (interface kind.version self.now.entries) < 65000 }
        requires room { length words.old.list
            + length (words_of_code (front context.now (kind_of kind) self.now.entries constants.now.list))
            ≤ words.old.capacity }
        ensures list { words.new.list
            ≡ words.old.list ++ words_of_code (front context.now (kind_of kind) self.now.entries constants.now.list) }
        ensures capacity { words.new.capacity ≡ words.old.capacity }
    {
        put(words, op::CAPABILITY, &[model::SHADER]);
        self.put_section(context, Section::Imports, words);
        put_models(self, kind, words);
        self.put_decorations(context, words);
        self.put_section(context, Section::Types, words);
        constants.put(self, words);
        self.put_section(context, Section::Declarations, words);
    }

    /// Writes the beginning of the function of a module: its first label and its variables.
    ///
    /// There must be room for it behind the words.
    pub fn put_head(&self, context: &Context, words: &mut Pool<u32>)
        requires small { IsSmall context.now }
        requires room { length words.old.list + length (words_of_code (head context.now self.now.entries))
            ≤ words.old.capacity }
        ensures list { words.new.list ≡ words.old.list ++ words_of_code (head context.now self.now.entries) }
        ensures capacity { words.new.capacity ≡ words.old.capacity }
    {
        self.put_section(context, Section::Heads, words);
        self.put_section(context, Section::Labels, words);
        self.put_section(context, Section::Locals, words);
    }
}
