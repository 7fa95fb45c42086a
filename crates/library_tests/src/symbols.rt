//! Symbols of a module: their ids, and the sections that declare them.
ghost use Rattle.std.specs.Prelude.{◌≡◌, ◌+◌, ◌*◌, ◌≤◌, [], length, false};
ghost use Rattle.node_pool.specs.Pools.{pooled};
ghost use Rattle.spirv_symbols.specs.Contexts.{IsSmall};
ghost use Rattle.spirv_symbols.specs.Rows.{most_ids, most_words};
ghost use Rattle.spirv_symbols.specs.Tables.{Stands, empty_table, weight};

use node_pool::Pool;
use spirv_symbols::{Ascending, Context, Declared, Section, Symbol, Symbols};
use std::test::Fail;
use word_base::Room;

/// The id of a symbol of few needs, and 0 where the table has no room for them.
fn id_of(symbols: &mut Symbols, context: &Context, symbol: Symbol) -> u32
    requires stands { Stands context.now symbols.old }
    requires few { most_ids context.now symbol ≤ 9 }
    requires words { most_words context.now symbol ≤ 50 }
    ensures stands { Stands context.now symbols.new }
    ensures limit { symbols.new.limit ≡ symbols.old.limit }
    ensures words { weight context.now symbols.new.entries ≤ weight context.now symbols.old.entries + 50 }
{
    if symbols.next() < 90 && 99 < symbols.limit() {
        symbols.symbol(context, symbol)
    } else {
        0
    }
}

/// Writes decorations, simple types, constants, and what follows them.
fn put_front(symbols: &Symbols, context: &Context, ascending: &mut Ascending, words: &mut Pool<u32>)
    requires stands { Stands context.now symbols.now }
    requires small { IsSmall context.now }
    requires few { symbols.now.limit ≤ ascending.old.capacity }
    requires room { length words.old.list + 4 * weight context.now symbols.now.entries ≤ words.old.capacity }
    ensures capacity { words.new.capacity ≡ words.old.capacity }
    ensures places { ascending.new.capacity ≡ ascending.old.capacity }
{
    symbols.put_decorations(context, words);
    symbols.put_section(context, Section::Types, words);
    ascending.take_from(context, symbols);
    ascending.put(symbols, words);
    symbols.put_section(context, Section::Declarations, words);
}

/// Whether these are the words.
fn are_words(words: &Pool<u32>, expected: &[u32]) -> bool {
    let mut same = words.len() as usize == expected.len();
    for (i, word) in expected.iter().enumerate() {
        same = same && i < words.len() as usize && words.get(i as u32) == *word;
    }
    same
}

/// The ids of constants that come falling, and one of them again.
fn falling(context: &Context, symbols: &mut Symbols) -> [u32; 5]
    requires stands { Stands context.now symbols.old }
    ensures stands { Stands context.now symbols.new }
    ensures limit { symbols.new.limit ≡ symbols.old.limit }
{
    let first = id_of(symbols, context, Symbol::Constant(0x8000_0000));
    let second = id_of(symbols, context, Symbol::Constant(9));
    let third = id_of(symbols, context, Symbol::Constant(4));
    let again = id_of(symbols, context, Symbol::Constant(9));
    let last = id_of(symbols, context, Symbol::Constant(0));
    [first, second, third, again, last]
}

/// They ascend where they are listed.
#[test]
fn constants_ascend(rt: HostRuntime) -> Result<(), Fail> {
    let context = Context::make(rt.alloc(), 1)?;
    let mut symbols = Symbols::make(rt.alloc(), 100)?;
    let mut ascending = Ascending::make(rt.alloc(), 100)?;
    assert_eq!(rt; falling(&context, &mut symbols), [2, 3, 4, 3, 5]);
    ascending.take_from(&context, &symbols);
    assert_eq!(rt; ascending.len(), 4);
    for (i, word) in [(0, 0), (1, 4), (2, 9), (3, 0x8000_0000)] {
        assert!(rt; i < ascending.len());
        assert_eq!(rt; ascending.at(i).word, word);
    }
    Ok(())
}

/// A view that is only read.
const VIEW: Symbol = Symbol::Memory(Room::Resource(7));

/// What declares the view at set 3 and binding 5, and a constant.
const DECLARED: [u32; 46] = [
    0x4_0047, 2, 6, 4, // OpDecorate ArrayStride 4
    0x3_0047, 3, 2, // OpDecorate Block
    0x5_0048, 3, 0, 35, 0, // OpMemberDecorate Offset 0
    0x4_0048, 3, 0, 24, // OpMemberDecorate NonWritable
    0x4_0047, 5, 34, 3, // OpDecorate DescriptorSet 3
    0x4_0047, 5, 33, 5, // OpDecorate Binding 5
    0x4_0015, 1, 32, 0, // OpTypeInt 32 0
    0x3_001D, 2, 1, // OpTypeRuntimeArray
    0x3_001E, 3, 2, // OpTypeStruct
    0x4_0020, 4, 12, 3, // OpTypePointer StorageBuffer
    0x4_002B, 1, 6, 40, // OpConstant
    0x4_003B, 4, 5, 12, // OpVariable StorageBuffer
];

/// Whether the view and a constant have their ids and these words, and then, in the same table, a constant alone.
fn declares(
    context: &Context,
    symbols: &mut Symbols,
    ascending: &mut Ascending,
    words: &mut Pool<u32>,
) -> bool
    requires small { IsSmall context.now }
    requires empty { symbols.old ≡ empty_table 100 }
    requires few { ascending.old.capacity ≡ 100 }
    requires room { words.old ≡ pooled [] 400 }
{
    let view = id_of(symbols, context, VIEW);
    let constant = id_of(symbols, context, Symbol::Constant(40));
    put_front(symbols, context, ascending, words);
    let whole = (view, constant) == (5, 6) && are_words(words, &DECLARED);
    symbols.clear();
    words.clear();
    let alone = id_of(symbols, context, Symbol::Constant(40));
    put_front(symbols, context, ascending, words);
    whole && alone == 2 && are_words(words, &[0x4_0015, 1, 32, 0, 0x4_002B, 1, 2, 40])
}

#[test]
fn sections_declare_symbols(rt: HostRuntime) -> Result<(), Fail> {
    let mut context = Context::make(rt.alloc(), 1)?;
    context.declare(Declared {
        variable: VIEW,
        size: 0,
        set: 3,
        binding: 5,
        coherent: false,
    });
    let mut symbols = Symbols::make(rt.alloc(), 100)?;
    let mut ascending = Ascending::make(rt.alloc(), 100)?;
    let mut words = Pool::make(rt.alloc(), 400)?;
    assert!(rt; declares(&context, &mut symbols, &mut ascending, &mut words));
    Ok(())
}
