//! The words of the sections.
ghost use Rattle.std.specs.Prelude.{◌≡◌, ◌+◌, ◌<◌, ◌≤◌, ◌++◌, length};
ghost use Rattle.spirv_words.specs.Text.{instr, words_of_code, words_of_instr};
ghost use Rattle.spirv_symbols.specs.declared.row.Marks.TheVariants.{Block};
ghost use Rattle.spirv_symbols.specs.Contexts.{Context as Given, IsSmall};
ghost use Rattle.spirv_symbols.specs.Rows.{decorations_by, section_of_type, section_of, row_of, operand, words_of_marks};
ghost use Rattle.spirv_symbols.specs.Tables.{instr_of, id_of};
ghost use Rattle.spirv_symbols.specs.Sections.{order, in_section, section_code, decorations_of};

use crate::context::Context;
use crate::entry::Entry;
use crate::row::{Marks, Part, part_at, part_count, row_of};
use crate::symbol::{Access, Section, Symbol, TypeSymbol};
use crate::table::Symbols;
use node_pool::Pool;
use spirv_words::{decoration, op};

/// Writes an instruction: its number and its operands.
pub(crate) fn put(words: &mut Pool<u32>, op: u32, operands: &[u32])
    requires op { op < 65536 }
    requires operands { length operands.now < 65535 }
    requires room { length words.old.list + length operands.now + 1 ≤ words.old.capacity }
    ensures list { words.new.list ≡ words.old.list ++ words_of_instr (instr op operands.now) }
    ensures count { length words.new.list ≡ length words.old.list + length operands.now + 1 }
    ensures capacity { words.new.capacity ≡ words.old.capacity }
{
    words.push(65536 * (operands.len() as u32 + 1) + op);
    for operand in operands {
        words.push(*operand);
    }
}

/// Writes the decorations of a block of one member.
fn put_block(words: &mut Pool<u32>, id: u32, access: Access)
    requires room { length words.old.list + words_of_marks (Block access) ≤ words.old.capacity }
    ensures list { words.new.list ≡ words.old.list ++ words_of_code (decorations_by id (Block access)) }
    ensures capacity { words.new.capacity ≡ words.old.capacity }
{
    put(words, op::DECORATE, &[id, decoration::BLOCK]);
    put(words, op::MEMBER_DECORATE, &[id, 0, decoration::OFFSET, 0]);
    match access {
        Access::Plain => {}
        Access::ReadOnly => put(
            words,
            op::MEMBER_DECORATE,
            &[id, 0, decoration::NON_WRITABLE],
        ),
        Access::Coherent => put(words, op::MEMBER_DECORATE, &[id, 0, decoration::COHERENT]),
    }
}

/// Writes the decorations of an id.
fn put_marks(words: &mut Pool<u32>, id: u32, marks: Marks)
    requires room { length words.old.list + words_of_marks marks ≤ words.old.capacity }
    ensures list { words.new.list ≡ words.old.list ++ words_of_code (decorations_by id marks) }
    ensures capacity { words.new.capacity ≡ words.old.capacity }
{
    match marks {
        Marks::Nothing => {}
        Marks::Stride(bytes) => put(words, op::DECORATE, &[id, decoration::ARRAY_STRIDE, bytes]),
        Marks::Block(access) => put_block(words, id, access),
        Marks::Bound { set, binding } => {
            put(words, op::DECORATE, &[id, decoration::DESCRIPTOR_SET, set]);
            put(words, op::DECORATE, &[id, decoration::BINDING, binding]);
        }
        Marks::BuiltIn(number) => put(words, op::DECORATE, &[id, decoration::BUILT_IN, number]),
    }
}

/// The section of a type.
fn section_of_type(symbol: TypeSymbol) -> Section
    ensures { result ≡ section_of_type symbol }
{
    match symbol {
        TypeSymbol::Words(_) => Section::Declarations,
        TypeSymbol::PushWords(_) => Section::Declarations,
        TypeSymbol::Vectors(_) => Section::Declarations,
        TypeSymbol::VectorsBlock(_) => Section::Declarations,
        TypeSymbol::PushBlock(_) => Section::Declarations,
        TypeSymbol::LocalPointer(_) => Section::Declarations,
        TypeSymbol::SharedPointer(_) => Section::Declarations,
        TypeSymbol::VectorsPointer(_) => Section::Declarations,
        TypeSymbol::PushPointer(_) => Section::Declarations,
        _ => Section::Types,
    }
}

/// The section of a symbol.
fn section_of(symbol: Symbol) -> Section
    ensures { (c : Given) → result ≡ section_of c symbol }
{
    match symbol {
        Symbol::AType(of) => section_of_type(of),
        Symbol::Constant(_) => Section::Constants,
        Symbol::Import => Section::Imports,
        Symbol::Main => Section::Heads,
        Symbol::FirstLabel => Section::Labels,
        Symbol::Scratch(_) => Section::Locals,
        Symbol::Register(_) => Section::Locals,
        Symbol::Registers => Section::Locals,
        Symbol::Elements(_) => Section::Locals,
        Symbol::ImmediateArray => Section::Locals,
        _ => Section::Declarations,
    }
}

fn order(section: Section) -> u32
    ensures { result ≡ order section }
{
    match section {
        Section::Imports => 0,
        Section::Types => 1,
        Section::Constants => 2,
        Section::Declarations => 3,
        Section::Heads => 4,
        Section::Labels => 5,
        Section::Locals => 6,
    }
}

/// Whether an entry stands in a section.
fn is_in(section: Section, entry: Entry) -> bool
    ensures { (c : Given) → result ≡ in_section c section entry }
{
    order(section_of(entry.symbol)) == order(section)
}

/// The id or number of an operand.
fn operand(symbols: &Symbols, own: u32, part: Part) -> u32
    ensures { result ≡ operand (id_of symbols.now.entries) own part }
{
    match part {
        Part::Own => own,
        Part::Of(symbol) => symbols.id(symbol),
        Part::Number(n) => n,
    }
}

/// Writes the instruction of an entry.
fn put_instruction(symbols: &Symbols, context: &Context, entry: Entry, words: &mut Pool<u32>)
    requires small { IsSmall context.now }
    requires room { length words.old.list + length (row_of context.now entry.symbol).parts + 1 ≤ words.old.capacity }
    ensures list { words.new.list ≡ words.old.list ++ words_of_instr (instr_of context.now symbols.now.entries entry) }
    ensures capacity { words.new.capacity ≡ words.old.capacity }
{
    let row = row_of(context, entry.symbol);
    let count = part_count(context, &row);
    words.push(65536 * (count as u32 + 1) + row.op);
    for k in 0..count {
        words.push(operand(symbols, entry.id, part_at(context, &row, k)));
    }
}

impl Symbols {
    /// Writes the instructions of a section, in the order of the table.
    ///
    /// There must be room for them behind the words.
    pub fn put_section(&self, context: &Context, section: Section, words: &mut Pool<u32>)
        requires small { IsSmall context.now }
        requires room { length words.old.list
            + length (words_of_code (section_code context.now section self.now.entries)) ≤ words.old.capacity }
        ensures list { words.new.list ≡ words.old.list
            ++ words_of_code (section_code context.now section self.now.entries) }
        ensures capacity { words.new.capacity ≡ words.old.capacity }
    {
        for k in 0..self.len() {
            let entry = self.entry(k);
            if is_in(section, entry) {
                put_instruction(self, context, entry, words);
            }
        }
    }

    /// Writes the decorations of all symbols.
    ///
    /// There must be room for them behind the words.
    pub fn put_decorations(&self, context: &Context, words: &mut Pool<u32>)
        requires room { length words.old.list
            + length (words_of_code (decorations_of context.now self.now.entries)) ≤ words.old.capacity }
        ensures list { words.new.list ≡ words.old.list ++ words_of_code (decorations_of context.now self.now.entries) }
        ensures capacity { words.new.capacity ≡ words.old.capacity }
    {
        for k in 0..self.len() {
            let entry = self.entry(k);
            put_marks(words, entry.id, row_of(context, entry.symbol).marks);
        }
    }
}
