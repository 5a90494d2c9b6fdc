//! Names in C texts that several crates write or read.

ghost use Rattle.std.specs.Prelude.{◌≡◌};
ghost use Rattle.c_tree.specs.Texts;

use num_type::Container;

/// The name of a container as an exact-width type of C (ISO/IEC 9899:1999, 7.18.1.1).
pub fn container_text(container: Container) -> &'static [u8]
    ensures { result.now ≡ Texts.container_text container }
{
    match container {
        Container::I8 => b"int8_t",
        Container::I16 => b"int16_t",
        Container::I32 => b"int32_t",
        Container::I64 => b"int64_t",
        Container::U8 => b"uint8_t",
        Container::U16 => b"uint16_t",
        Container::U32 => b"uint32_t",
        Container::U64 => b"uint64_t",
    }
}
