//! The rows of symbols, as values: what `specs/Rows` says of each symbol.
ghost use Rattle.std.specs.Prelude.{◌≡◌, ◌<◌, ◌≤◌, false, length, slice_get, Some};
ghost use Rattle.spirv_words.specs.declared.op.TheConstants as op;
ghost use Rattle.spirv_words.specs.declared.storage_class.TheConstants as storage;
ghost use Rattle.spirv_symbols.specs.declared.symbol.Section.TheVariants.{Types, Declarations, Locals};
ghost use Rattle.spirv_symbols.specs.declared.symbol.Access.TheVariants.{Plain};
ghost use Rattle.spirv_symbols.specs.declared.symbol.TypeSymbol.TheVariants.{Word, Words, WordPointer, LocalPointer, ViewPointer};
ghost use Rattle.spirv_symbols.specs.declared.symbol.Symbol.TheVariants.{AType, Constant, Null, Immediates, Import, Input, Memory, Uniform};
ghost use Rattle.spirv_symbols.specs.declared.row.Part.TheVariants.{Own, Of, Number};
ghost use Rattle.spirv_symbols.specs.declared.row.Marks.TheVariants.{Nothing, Block, Bound};
ghost use Rattle.spirv_symbols.specs.Contexts.{Context as Given};
ghost use Rattle.spirv_symbols.specs.Rows.{uav_access, type_row, row_of};
ghost use Rattle.spirv_symbols.specs.RowValues.{IsRow, none, row_value, parts_of};

use crate::context::Context;
use crate::symbol::{Access, Section, Symbol, TypeSymbol};
use spirv_words::{built_in, glsl, op, storage_class};
use word_base::Room;

/// An operand of a symbol's instruction.
#[derive(Clone, Copy)]
pub enum Part {
    /// The symbol's own id.
    Own,
    /// The id of a symbol that it needs.
    Of(Symbol),
    /// A number.
    Number(u32),
}

/// How the id of a symbol is decorated.
#[derive(Clone, Copy)]
pub enum Marks {
    /// Not at all.
    Nothing,
    /// An array, with the bytes from one element to the next.
    Stride(u32),
    /// A block of one member at offset 0.
    Block(Access),
    /// A variable at a descriptor.
    Bound {
        /// The descriptor set.
        set: u32,
        /// The binding.
        binding: u32,
    },
    /// A built-in, by its number.
    BuiltIn(u32),
}

/// The row of a symbol. The operands are the first `count` of `parts`, and behind them, where `gathers`, the
/// constants of the immediate constant buffer.
#[derive(Clone, Copy)]
pub(crate) struct Row {
    pub section: Section,
    pub op: u32,
    pub parts: [Part; 5],
    pub count: u32,
    pub gathers: bool,
    pub marks: Marks,
}

const NONE: Part = Part::Number(0);

const WORD: Part = Part::Of(Symbol::AType(TypeSymbol::Word));

fn of_type(symbol: TypeSymbol) -> Part
    ensures { result ≡ Of (AType symbol) }
{
    Part::Of(Symbol::AType(symbol))
}

/// A row with so many operands.
fn row_with(section: Section, op: u32, count: u32, parts: [Part; 5], marks: Marks) -> Row
    ensures { result ≡ record {
      section = section;
      op = op;
      parts = parts;
      count = count;
      gathers = false;
      marks =
          marks;
    } }
{
    Row {
        section,
        op,
        parts,
        count,
        gathers: false,
        marks,
    }
}

/// A type that needs no constant.
fn simple(op: u32, count: u32, a: Part, b: Part, marks: Marks) -> Row
    ensures { result ≡ row_value Types op count Own a b none none marks }
{
    row_with(
        Section::Types,
        op,
        count,
        [Part::Own, a, b, NONE, NONE],
        marks,
    )
}

/// A type that needs a constant.
fn sized(op: u32, count: u32, a: Part, b: Part, marks: Marks) -> Row
    ensures { result ≡ row_value Declarations op count Own a b none none marks }
{
    row_with(
        Section::Declarations,
        op,
        count,
        [Part::Own, a, b, NONE, NONE],
        marks,
    )
}

/// A pointer type.
fn pointer(class: u32, to: TypeSymbol) -> Row
    ensures { result ≡ row_value Declarations op.TYPE_POINTER 3 Own (Number class) (Of (AType to)) none none Nothing }
{
    sized(
        op::TYPE_POINTER,
        3,
        Part::Number(class),
        of_type(to),
        Marks::Nothing,
    )
}

fn simple_pointer(class: u32, to: TypeSymbol) -> Row
    ensures { result ≡ row_value Types op.TYPE_POINTER 3 Own (Number class) (Of (AType to)) none none Nothing }
{
    simple(
        op::TYPE_POINTER,
        3,
        Part::Number(class),
        of_type(to),
        Marks::Nothing,
    )
}

/// An array whose length is a constant.
fn array(element: TypeSymbol, length: u32, marks: Marks) -> Row
    ensures { result ≡ row_value Declarations op.TYPE_ARRAY 3 Own (Of (AType element)) (Of (Constant length)) none
        none marks }
{
    let length = Part::Of(Symbol::Constant(length));
    sized(op::TYPE_ARRAY, 3, of_type(element), length, marks)
}

fn vector(count: u32) -> Row
    ensures { result ≡ row_value Types op.TYPE_VECTOR 3 Own (Of (AType Word)) (Number count) none none Nothing }
{
    simple(
        op::TYPE_VECTOR,
        3,
        WORD,
        Part::Number(count),
        Marks::Nothing,
    )
}

/// The row of a type.
fn type_row(symbol: TypeSymbol) -> Row
    ensures { (c : Given) → IsRow c (type_row symbol) result }
{
    match symbol {
        TypeSymbol::Void => simple(op::TYPE_VOID, 1, NONE, NONE, Marks::Nothing),
        TypeSymbol::Procedure => {
            let void = of_type(TypeSymbol::Void);
            simple(op::TYPE_FUNCTION, 2, void, NONE, Marks::Nothing)
        }
        TypeSymbol::Word => {
            let width = Part::Number(32);
            simple(op::TYPE_INT, 3, width, Part::Number(0), Marks::Nothing)
        }
        TypeSymbol::Truth => simple(op::TYPE_BOOL, 1, NONE, NONE, Marks::Nothing),
        TypeSymbol::Triple => vector(3),
        TypeSymbol::Quad => vector(4),
        TypeSymbol::Pair => simple(op::TYPE_STRUCT, 3, WORD, WORD, Marks::Nothing),
        TypeSymbol::Words(n) => array(TypeSymbol::Word, n, Marks::Nothing),
        TypeSymbol::PushWords(n) => array(TypeSymbol::Word, n, Marks::Stride(4)),
        TypeSymbol::Vectors(n) => array(TypeSymbol::Quad, n, Marks::Stride(16)),
        TypeSymbol::RuntimeWords => {
            simple(op::TYPE_RUNTIME_ARRAY, 2, WORD, NONE, Marks::Stride(4))
        }
        TypeSymbol::View(access) => {
            let member = of_type(TypeSymbol::RuntimeWords);
            simple(op::TYPE_STRUCT, 2, member, NONE, Marks::Block(access))
        }
        TypeSymbol::VectorsBlock(n) => block(TypeSymbol::Vectors(n)),
        TypeSymbol::PushBlock(n) => block(TypeSymbol::PushWords(n)),
        TypeSymbol::WordPointer(class) => simple_pointer(class, TypeSymbol::Word),
        TypeSymbol::TriplePointer => simple_pointer(storage_class::INPUT, TypeSymbol::Triple),
        TypeSymbol::LocalPointer(n) => pointer(storage_class::FUNCTION, TypeSymbol::Words(n)),
        TypeSymbol::SharedPointer(n) => pointer(storage_class::WORKGROUP, TypeSymbol::Words(n)),
        TypeSymbol::ViewPointer(access) => {
            simple_pointer(storage_class::STORAGE_BUFFER, TypeSymbol::View(access))
        }
        TypeSymbol::VectorsPointer(n) => {
            pointer(storage_class::UNIFORM, TypeSymbol::VectorsBlock(n))
        }
        TypeSymbol::PushPointer(n) => {
            pointer(storage_class::PUSH_CONSTANT, TypeSymbol::PushBlock(n))
        }
    }
}

/// A block of one member, which is an array with a length.
fn block(member: TypeSymbol) -> Row
    ensures { result ≡ row_value Declarations op.TYPE_STRUCT 2 Own (Of (AType member)) none none none (Block Plain) }
{
    sized(
        op::TYPE_STRUCT,
        2,
        of_type(member),
        NONE,
        Marks::Block(Access::Plain),
    )
}

/// A constant, or an instruction in front of a function's code.
fn value(section: Section, op: u32, count: u32, of: TypeSymbol, a: Part, b: Part) -> Row
    ensures { result ≡ row_value section op count (Of (AType of)) Own a b none Nothing }
{
    let parts = [of_type(of), Part::Own, a, b, NONE];
    row_with(section, op, count, parts, Marks::Nothing)
}

/// A global variable.
fn global(pointer: TypeSymbol, class: u32, marks: Marks) -> Row
    ensures { result ≡ row_value Declarations op.VARIABLE 3 (Of (AType pointer)) Own (Number class) none none marks }
{
    let parts = [of_type(pointer), Part::Own, Part::Number(class), NONE, NONE];
    row_with(Section::Declarations, op::VARIABLE, 3, parts, marks)
}

/// A variable of the function.
fn local(pointer: TypeSymbol, initializer: Symbol) -> Row
    ensures { result ≡ row_value Locals op.VARIABLE 4 (Of (AType pointer)) Own (Number storage.FUNCTION) (Of
        initializer) none Nothing }
{
    let class = Part::Number(storage_class::FUNCTION);
    value(
        Section::Locals,
        op::VARIABLE,
        4,
        pointer,
        class,
        Part::Of(initializer),
    )
}

fn local_word() -> Row
    ensures { result ≡ row_value Locals op.VARIABLE 4 (Of (AType (WordPointer storage.FUNCTION))) Own (Number
        storage.FUNCTION) (Of (Constant 0)) none Nothing }
{
    let pointer = TypeSymbol::WordPointer(storage_class::FUNCTION);
    local(pointer, Symbol::Constant(0))
}

fn local_array(size: u32) -> Row
    ensures { result ≡ row_value Locals op.VARIABLE 4 (Of (AType (LocalPointer size))) Own (Number storage.FUNCTION)
        (Of (Null size)) none Nothing }
{
    local(TypeSymbol::LocalPointer(size), Symbol::Null(size))
}

fn view(access: Access, set: u32, binding: u32) -> Row
    ensures { result ≡ row_value Declarations op.VARIABLE 3 (Of (AType (ViewPointer access))) Own (Number
        storage.STORAGE_BUFFER) none none (Bound set binding) }
{
    let pointer = TypeSymbol::ViewPointer(access);
    let place = Marks::Bound { set, binding };
    global(pointer, storage_class::STORAGE_BUFFER, place)
}

fn access_of(coherent: bool) -> Access
    ensures { result ≡ uav_access coherent }
{
    if coherent {
        Access::Coherent
    } else {
        Access::Plain
    }
}

/// The row of a view, a counter or shared memory.
fn memory(context: &Context, room: Room) -> Row
    ensures { IsRow context.now (row_of context.now (Memory room)) result }
{
    let declared = context.declared_of(Symbol::Memory(room));
    match room {
        Room::Resource(_) => view(Access::ReadOnly, declared.set, declared.binding),
        Room::Uav(_) => view(access_of(declared.coherent), declared.set, declared.binding),
        Room::Counter(_) => view(Access::Plain, declared.set, declared.binding),
        Room::Shared(_) => {
            let pointer = TypeSymbol::SharedPointer(declared.size);
            global(pointer, storage_class::WORKGROUP, Marks::Nothing)
        }
    }
}

/// The row of a constant buffer.
fn uniform(context: &Context, slot: u32) -> Row
    ensures { IsRow context.now (row_of context.now (Uniform slot)) result }
{
    let declared = context.declared_of(Symbol::Uniform(slot));
    let place = Marks::Bound {
        set: declared.set,
        binding: declared.binding,
    };
    let pointer = TypeSymbol::VectorsPointer(declared.size);
    global(pointer, storage_class::UNIFORM, place)
}

/// The row of a built-in's variable.
fn input(number: u32) -> Row
    ensures { (c : Given) → IsRow c (row_of c (Input number)) result }
{
    let pointer = if number == built_in::LOCAL_INVOCATION_INDEX {
        TypeSymbol::WordPointer(storage_class::INPUT)
    } else {
        TypeSymbol::TriplePointer
    };
    global(pointer, storage_class::INPUT, Marks::BuiltIn(number))
}

/// The row of the composite of the immediate constant buffer.
fn immediates(context: &Context) -> Row
    ensures { IsRow context.now (row_of context.now Immediates) result }
{
    let of = TypeSymbol::Words(context.immediates());
    Row {
        section: Section::Declarations,
        op: op::CONSTANT_COMPOSITE,
        parts: [of_type(of), Part::Own, NONE, NONE, NONE],
        count: 2,
        gathers: true,
        marks: Marks::Nothing,
    }
}

/// The row of the extended instructions.
fn import() -> Row
    ensures { (c : Given) → IsRow c (row_of c Import) result }
{
    let parts = [
        Part::Own,
        Part::Number(glsl::TEXT[0]),
        Part::Number(glsl::TEXT[1]),
        Part::Number(glsl::TEXT[2]),
        Part::Number(glsl::TEXT[3]),
    ];
    row_with(
        Section::Imports,
        op::EXT_INST_IMPORT,
        5,
        parts,
        Marks::Nothing,
    )
}

/// The row of a symbol.
pub(crate) fn row_of(context: &Context, symbol: Symbol) -> Row
    ensures { IsRow context.now (row_of context.now symbol) result }
{
    match symbol {
        Symbol::AType(of) => type_row(of),
        Symbol::Constant(word) => {
            let word = Part::Number(word);
            value(
                Section::Constants,
                op::CONSTANT,
                3,
                TypeSymbol::Word,
                word,
                NONE,
            )
        }
        Symbol::True => {
            let of = TypeSymbol::Truth;
            value(Section::Declarations, op::CONSTANT_TRUE, 2, of, NONE, NONE)
        }
        Symbol::Null(n) => {
            let of = TypeSymbol::Words(n);
            value(Section::Declarations, op::CONSTANT_NULL, 2, of, NONE, NONE)
        }
        Symbol::Immediates => immediates(context),
        Symbol::Import => import(),
        Symbol::Main => {
            let kind = of_type(TypeSymbol::Procedure);
            value(
                Section::Heads,
                op::FUNCTION,
                4,
                TypeSymbol::Void,
                Part::Number(0),
                kind,
            )
        }
        Symbol::FirstLabel => {
            let parts = [Part::Own, NONE, NONE, NONE, NONE];
            row_with(Section::Labels, op::LABEL, 1, parts, Marks::Nothing)
        }
        Symbol::Input(number) => input(number),
        Symbol::Memory(room) => memory(context, room),
        Symbol::Uniform(slot) => uniform(context, slot),
        Symbol::Push => {
            let pointer = TypeSymbol::PushPointer(context.pushed());
            global(pointer, storage_class::PUSH_CONSTANT, Marks::Nothing)
        }
        Symbol::Scratch(_) => local_word(),
        Symbol::Register(_) => local_word(),
        Symbol::Registers => local_array(context.registers()),
        Symbol::Elements(slot) => { local_array(context.declared_of(Symbol::Elements(slot)).size) }
        Symbol::ImmediateArray => {
            let pointer = TypeSymbol::LocalPointer(context.immediates());
            local(pointer, Symbol::Immediates)
        }
    }
}

/// Returns the number of operands of a row.
pub(crate) fn part_count(context: &Context, row: &Row) -> usize
    requires { row.now.count ≤ length row.now.parts }
    ensures { result ≡ length (parts_of context.now row.now) }
{
    let count = row.count as usize;
    if row.gathers {
        count + context.immediates() as usize
    } else {
        count
    }
}

/// Returns the operand of a row at the place `k`.
pub(crate) fn part_at(context: &Context, row: &Row, k: usize) -> Part
    requires few { row.now.count ≤ length row.now.parts }
    requires within { k < length (parts_of context.now row.now) }
    ensures { slice_get (parts_of context.now row.now) k ≡ Some result }
{
    let count = row.count as usize;
    if k < count {
        row.parts[k]
    } else {
        context.room_laws();
        let word = context.immediate((k - count) as u32);
        Part::Of(Symbol::Constant(word))
    }
}
