//! Words of the command line.
use command_line::{BindingChoice, Command, read_words};
use outside::Words;
use spirv_words::Version;
use std::alloc::{AllocError, Global};
use std::test::Fail;

/// The words of a command line, which spaces part.
fn words(alloc: Global, line: &str) -> Result<Words, AllocError> {
    let mut list = Vec::new(alloc);
    for word in line.split_whitespace() {
        list.push(String::from_str(alloc, word)?)?;
    }
    Ok(Words { list })
}

/// Words that ask for a translation of `a`: its output, its bindings and its version.
const TRANSLATIONS: &[(&str, &str, BindingChoice, Version)] = &rows! {
    ("a", "-", BindingChoice::Default, Version::V13);
    ("-o b a", "b", BindingChoice::Default, Version::V13);
    ("a -ob", "b", BindingChoice::Default, Version::V13);
    ("-x dxbc-tpf -b spirv-binary a", "-", BindingChoice::Default, Version::V13);
    ("--bindings t a", "-", BindingChoice::Text("t"), Version::V13);
    ("a --bindings -", "-", BindingChoice::Text("-"), Version::V13);
    ("--root-signature=s -o - -- a", "-", BindingChoice::Signature("s"), Version::V13);
    ("--spirv-version 1.4 a", "-", BindingChoice::Default, Version::V14);
};

/// Words that ask for nothing, each for one cause.
const WRONG: &[&str] = &rows! {
    "a b";
    "-o";
    "-o b -o c";
    "--help";
    "-x hlsl";
    "-b dxil";
    "-b d3d-asm";
    "--spirv-version 1.5";
    "--bindings t --root-signature s a";
    "--bindings -";
    "--simulate d a";
    "--sample 2";
};

#[test]
fn words_ask_for_translations(rt: HostRuntime) -> Result<(), Fail> {
    for (line, output, bindings, version) in TRANSLATIONS {
        let words = words(rt.alloc(), line)?;
        let command = Command {
            input: "a",
            output,
            bindings: *bindings,
            version: *version,
        };
        assert!(rt; read_words(rt.alloc(), &words)? == Some(command), "{line}");
    }
    for line in WRONG {
        let words = words(rt.alloc(), line)?;
        assert!(rt; read_words(rt.alloc(), &words)?.is_none(), "{line}");
    }
    Ok(())
}
