// The C boundary: the calls that the camera's program makes, on numbers and slices. include/duftheim.h declares them, so that parameters
// and fields are numbers one by one, and 0 is the number of an acceptance.
#![tactic(auto)]

ghost use Rattle.std.specs.Prelude.{◌≡◌};
ghost use Rattle.maps.specs.Given.{lent};
ghost use Rattle.maps.specs.Shown.{given};
ghost use Rattle.words.specs.Sign.{shown_signed};
ghost use Rattle.drawer.specs.Drawer.{drawer};
ghost use Rattle.drawer.specs.Answers.{shown_search, shown_filing};
ghost use Rattle.reader.specs.Boundary.{CheckedAs, SignedAs, MatchedAs, ListJudgedAs, DrawerCheckedAs, FoundAs, FiledAs};
ghost use Rattle.reader.specs.Numbers.{Shows, signed_numbers, found_numbers, filed_numbers};

use drawer::{DrawerRefusal, Found, Records};
use maps::{Refusal, Shown, Table};
use words::Signature;

// A verdict, as C sees it: number 0 and place 0 where the call accepts.
#[repr(C)]
#[derive(Clone, Copy)]
pub struct DuftheimVerdict {
    pub number: u32,
    pub place: usize,
}

// The answer of the signature call, as C sees it: number 0 where the map is accepted.
#[repr(C)]
#[derive(Clone, Copy)]
pub struct DuftheimSigned {
    pub number: u32,
    pub place: usize,
    pub start: usize,
    pub symmetries: usize,
}

// The answer of search, as C sees it: number 0 where the layout is filed.
#[repr(C)]
#[derive(Clone, Copy)]
pub struct DuftheimFound {
    pub number: u32,
    pub place: usize,
    pub die: u32,
    pub record: usize,
}

// The answer of filing, as C sees it: number 0 where the layout is filed now, with the new count of records.
#[repr(C)]
#[derive(Clone, Copy)]
pub struct DuftheimFiled {
    pub number: u32,
    pub place: usize,
    pub count: usize,
}

// The four conversions are alike, and stay one for each struct: C sees the structs, and each has fields of its own.
impl<E: Shown + Drop> From<Result<(), E>> for DuftheimVerdict {
    ghost from_gives = { λ answer seen. Shows E.shown answer seen };

    #[tactic(auto, unfolding(maps::specs::Verdict::accepted))]
    fn from(answer: Result<(), E>) -> DuftheimVerdict {
        match answer {
            Ok(()) => DuftheimVerdict {
                number: 0,
                place: 0,
            },
            Err(refusal) => {
                let (number, place) = refusal.number_and_place();
                DuftheimVerdict { number, place }
            }
        }
    }
}

impl From<Result<Signature, Refusal>> for DuftheimSigned {
    ghost from_gives = { λ answer seen. signed_numbers seen ≡ shown_signed answer };

    fn from(answer: Result<Signature, Refusal>) -> DuftheimSigned {
        match answer {
            Ok(signature) => DuftheimSigned {
                number: 0,
                place: 0,
                start: signature.start,
                symmetries: signature.symmetries,
            },
            Err(refusal) => {
                let (number, place) = refusal.number_and_place();
                DuftheimSigned {
                    number, // 1 to 9
                    place,
                    start: 0,
                    symmetries: 0,
                }
            }
        }
    }
}

impl From<Result<Found, DrawerRefusal>> for DuftheimFound {
    ghost from_gives = { λ answer seen. found_numbers seen ≡ shown_search answer };

    fn from(answer: Result<Found, DrawerRefusal>) -> DuftheimFound {
        match answer {
            Ok(found) => DuftheimFound {
                number: 0,
                place: 0,
                die: found.die,
                record: found.at,
            },
            Err(refusal) => {
                let (number, place) = refusal.number_and_place();
                DuftheimFound {
                    number, // 1 to 3, 5 to 9 or 13 to 15
                    place, // an entry's, a dart's or, of 14, a record's
                    die: 0,
                    record: 0,
                }
            }
        }
    }
}

// `Ok` has the new count.
impl From<Result<usize, DrawerRefusal>> for DuftheimFiled {
    ghost from_gives = { λ answer seen. filed_numbers seen ≡ shown_filing answer };

    fn from(answer: Result<usize, DrawerRefusal>) -> DuftheimFiled {
        match answer {
            Ok(count) => DuftheimFiled {
                number: 0,
                place: 0,
                count,
            },
            Err(refusal) => {
                let (number, place) = refusal.number_and_place();
                DuftheimFiled {
                    number, // 1 to 3, 5 to 9, 13, 14 or 16 to 18
                    place, // an entry's, a dart's or, of 14, 16 and 17, a record's
                    count: 0,
                }
            }
        }
    }
}

// A table, whose parts C lends one by one.
fn table_of(n: usize, m: usize, numbers: &[u16]) -> Table<'_>
    ensures { given result ≡ lent n m numbers.now }
{
    Table { n, m, numbers }
}

// Answers the start dart and the symmetries of a map, and writes its signature word to the output.
#[tactic(auto, using(crate::proofs::Boundary::signed_as))]
#[unsafe(no_mangle)]
pub extern "C" fn duftheim_signature(
    n: usize,
    m: usize,
    table: &[u16],
    output: &mut [u16],
) -> DuftheimSigned
    ensures { SignedAs (lent n m table.now) output.old result output.new }
{
    words::signature(table_of(n, m, table), output).into()
}

// Answers whether a table is that of a map, and if not, why.
#[tactic(auto, using(crate::proofs::Boundary::judged_shown))]
#[unsafe(no_mangle)]
pub extern "C" fn duftheim_check(n: usize, m: usize, table: &[u16]) -> DuftheimVerdict
    ensures { CheckedAs (lent n m table.now) result }
{
    labels::check(table_of(n, m, table)).into()
}

// Answers whether two maps match, and writes the matching from the first to the second to the output.
#[tactic(auto, using(crate::proofs::Boundary::match_shown))]
#[unsafe(no_mangle)]
pub extern "C" fn duftheim_match(
    n: usize,
    m: usize,
    table: &[u16],
    n2: usize,
    m2: usize,
    table2: &[u16],
    output: &mut [u16],
) -> DuftheimVerdict
    ensures { MatchedAs (lent n m table.now) (lent n2 m2 table2.now) output.old result output.new }
{
    let first = table_of(n, m, table);
    let second = table_of(n2, m2, table2);
    words::match_maps(first, second, output).into()
}

// Answers whether a list is a matching from the first map to the second.
#[tactic(auto, using(crate::proofs::Boundary::list_shown))]
#[unsafe(no_mangle)]
pub extern "C" fn duftheim_judge(
    n: usize,
    m: usize,
    table: &[u16],
    n2: usize,
    m2: usize,
    table2: &[u16],
    list: &[u16],
) -> DuftheimVerdict
    ensures { ListJudgedAs (lent n m table.now) (lent n2 m2 table2.now) list.now result }
{
    let first = table_of(n, m, table);
    let second = table_of(n2, m2, table2);
    matches::judge_list(first, second, list).into()
}

// Answers whether a drawer is good, and if not, why.
#[tactic(auto, using(crate::proofs::Boundary::drawer_shown))]
#[unsafe(no_mangle)]
pub extern "C" fn duftheim_drawer_check(count: usize, bytes: &[u8]) -> DuftheimVerdict
    ensures { DrawerCheckedAs (drawer count bytes.now) result }
{
    drawer::check_drawer(Records { count, bytes }).into()
}

// Answers under which die, and in which record, a drawer holds the layout of a map.
#[tactic(auto, using(crate::proofs::Boundary::found_as))]
#[unsafe(no_mangle)]
pub extern "C" fn duftheim_search(
    n: usize,
    m: usize,
    table: &[u16],
    count: usize,
    bytes: &[u8],
) -> DuftheimFound
    ensures { FoundAs (lent n m table.now) (drawer count bytes.now) result }
{
    drawer::search_drawer(table_of(n, m, table), Records { count, bytes }).into()
}

// Files the layout of a map for a die behind the records of a drawer, and answers their new count.
#[tactic(auto, using(crate::proofs::Boundary::filed_as))]
#[unsafe(no_mangle)]
pub extern "C" fn duftheim_file(
    die: u32,
    n: usize,
    m: usize,
    table: &[u16],
    count: usize,
    bytes: &mut [u8],
) -> DuftheimFiled
    ensures { FiledAs die (lent n m table.now) (drawer count bytes.old) result bytes.new }
{
    drawer::file_layout(die, table_of(n, m, table), count, bytes).into()
}
