//! Tests of the libraries, by their public calls alone: in tables, a row a line. The library itself has nothing.
#![tactic(auto)]

/// The rows of a table, one a line.
#[cfg(test)]
macro_rules! rows {
    ($($row:expr;)*) => { [$($row),*] };
}

#[cfg(test)]
mod arithmetic;
#[cfg(test)]
mod blocks;
#[cfg(test)]
mod checks;
#[cfg(test)]
mod commands;
#[cfg(test)]
mod containers;
#[cfg(test)]
mod desks;
#[cfg(test)]
mod folding;
#[cfg(test)]
mod keeping;
#[cfg(test)]
mod lanes;
#[cfg(test)]
mod maps;
#[cfg(test)]
mod pools;
#[cfg(test)]
mod programs;
#[cfg(test)]
mod reading;
#[cfg(test)]
mod signatures;
#[cfg(test)]
mod symbols;
#[cfg(test)]
mod texts;
#[cfg(test)]
mod tokens;
#[cfg(test)]
mod translation;
