// The numbers of a text, each with the name that it stands behind, and the lists in them.
ghost use Rattle.std.specs.Prelude.{◌≡◌, ◌+◌, ◌*◌, length, get_or};
ghost use Rattle.texts.specs.JobText.{number_bytes, behind, measured_one, measured};
ghost use Rattle.texts.specs.Views.{place_of, bytes_of, table_in};

use crate::MOST_JOB;
use crate::names::Name;
use answers::Refusal;
use arrayvec::ArrayVec;

/// The numbers in their order. No job has more of them than its file has bytes.
pub(crate) type Numbers = ArrayVec<(Name, u8), MOST_JOB>;

/// The number at this place, whatever its name; 0 where there is none.
#[tactic(auto, using(crate::proofs::Numbers::number_here, crate::proofs::Numbers::number_none))]
pub(crate) fn number_at(numbers: &[(Name, u8)], place: usize) -> u8
    ensures { result ≡ get_or (bytes_of numbers.now) (number_bytes * place + 1) 0 }
{
    match numbers.get(place) {
        Some(&(_, value)) => value,
        None => 0,
    }
}

/// The numbers behind a name.
pub(crate) fn behind(numbers: &Numbers, name: Name) -> ArrayVec<u8, MOST_JOB>
    ensures { result.items ≡ behind (place_of name) (bytes_of numbers.now.items) }
{
    let mut values = ArrayVec::new();
    for number in numbers.as_slice() {
        if number.0 == name {
            values.push(number.1);
        }
    }
    values
}

// Is a measured node below n (5), and measured once (21)?
fn measure_one(name: Name, v: u8, table: &mut [u8]) -> Result<(), Refusal>
    ensures table_after { table_in result table.new ≡ measured_one (place_of name) v table.old }
    ensures table_len_unchanged { length table.new ≡ length table.old }
{
    let Some(measurement) = name.measurement() else {
        return Ok(());
    };
    let v = usize::from(v);
    if v >= table.len() {
        return Err(Refusal::NodeTooLarge);
    }
    if table[v] != 0 {
        return Err(Refusal::GivenTwice);
    }
    table[v] = measurement;
    Ok(())
}

/// The measurement of each node.
pub(crate) fn measure(numbers: &[(Name, u8)], table: &mut [u8]) -> Result<(), Refusal>
    ensures table_after { table_in result table.new ≡ measured (bytes_of numbers.now) table.old }
    ensures table_len_unchanged { length table.new ≡ length table.old }
{
    for number in numbers {
        measure_one(number.0, number.1, table)?;
    }
    Ok(())
}
