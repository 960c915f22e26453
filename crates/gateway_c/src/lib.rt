// The C interface: each function of `gateway` that C calls, exported under its name.
#![tactic(auto)]

ghost use Rattle.std.specs.Prelude.{◌≡◌};
ghost use Rattle.meaning.specs.Entries.{printed_literal_by_numbers, read_literal, checked_table, checked_document_by_numbers, printed_document_by_numbers};
ghost use Rattle.gateway.specs.Numbers.{Told, ToldForm, ToldPlace, ToldWhole};

#[unsafe(no_mangle)]
pub extern "C" fn dervisclo_print_literal(
    value: &[u8],
    description: u32,
    breaks: u32,
    prefix: &[u8],
    level: u64,
    out: &mut [u8],
    length: &mut u64,
) -> u32
    ensures { Told (printed_literal_by_numbers breaks prefix.now level description value.now out.old) result length.new out.new }
{
    gateway::dervisclo_print_literal(value, description, breaks, prefix, level, out, length)
}

#[unsafe(no_mangle)]
pub extern "C" fn dervisclo_read_literal(
    text: &[u8],
    out: &mut [u8],
    length: &mut u64,
    form: &mut u32,
) -> u32
    ensures { ToldForm (read_literal text.now out.old) result length.new form.new out.new }
{
    gateway::dervisclo_read_literal(text, out, length, form)
}

// The lowest refusal of a table, and its place; 0 where it is accepted.
#[unsafe(no_mangle)]
pub extern "C" fn dervisclo_check_table(words: &[u32], pool: &[u8], place: &mut u64) -> u32
    ensures { ToldPlace (checked_table words.now pool.now) result place.new }
{
    gateway::dervisclo_check_table(words, pool, place)
}

// The same for a document that is to be printed under these settings.
#[unsafe(no_mangle)]
pub extern "C" fn dervisclo_check_document(
    breaks: u32,
    prefix: &[u8],
    level: u64,
    words: &[u32],
    pool: &[u8],
    place: &mut u64,
) -> u32
    ensures { ToldPlace (checked_document_by_numbers breaks prefix.now level words.now pool.now) result place.new }
{
    gateway::dervisclo_check_document(breaks, prefix, level, words, pool, place)
}

// A table's document under these settings: its length, or the lowest refusal with its place or the needed length.
#[unsafe(no_mangle)]
pub extern "C" fn dervisclo_print_document(
    breaks: u32,
    prefix: &[u8],
    level: u64,
    words: &[u32],
    pool: &[u8],
    out: &mut [u8],
    place: &mut u64,
    length: &mut u64,
) -> u32
    ensures { ToldWhole (printed_document_by_numbers breaks prefix.now level words.now pool.now out.old) result place.new length.new out.new }
{
    gateway::dervisclo_print_document(breaks, prefix, level, words, pool, out, place, length)
}
