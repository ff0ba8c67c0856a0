// The rehearsal of the store: a script of calls at one to eight fresh sites, whose cells start with openings, its answers, and the record that it leaves.
#![tactic(auto)]

pub mod copies;
pub mod image;
pub mod ranks;
pub mod refuse;
pub mod run;
pub mod slots;

ghost use Rattle.std.specs.Prelude.{◌≡◌, Ok, None};
ghost use Rattle.record.specs.Layout.{edition_of, work_words};
ghost use Rattle.judge.specs.Judgments.{model_judgment};
ghost use Rattle.store.specs.Rehearsal.{rehearsal_refusal, record_of, in_numbers};
ghost use Rattle.store.specs.Demand.{Rehearses};

use calls::lent;
use calls::lent::Store;
use record::layout;
use store::{Rehearsal, Rehearsed};

// A rehearsal that questions 20 to 23 and 40 let pass: the whole script, and then its record.
fn accepted(
    sites: usize,
    openings: &[u8],
    script: &[u8],
    rec: &mut [u8],
    answers: &mut [u8],
) -> Rehearsed
    requires { rehearsal_refusal sites openings.now script.now rec.old answers.old ≡ 0 }
    ensures { Rehearses sites openings.now script.now rec.old answers.old rec.new answers.new (in_numbers (Ok result)) }
{
    let mut store = Store {
        known: [[0; layout::ROW]; lent::SITES],
        puts: [0; layout::ROW],
        sees: [[0; layout::ROW]; layout::EVENTS],
        cells: [run::opened(openings); lent::SITES],
        clocks: [0; lent::SITES],
        count: 0,
        events: [0; layout::EVENTS],
        held: [[0; lent::SITES]; lent::SITES],
        needs: [[0; lent::SITES]; layout::EVENTS],
    };
    run::run(sites, script, answers, &mut store);
    let length = image::write(sites as u8, openings, &store, rec);
    Rehearsed {
        length,
        outstanding: copies::outstanding(sites, &store),
    }
}

// A script at some fresh sites, with 132 bytes of openings. The record and the answers are written to the front of `rec` and `answers`; a refusal writes nothing.
// The judge, asked for model 4 of the record, promises to find it met.
pub fn rehearse(
    sites: usize,
    openings: &[u8],
    script: &[u8],
    rec: &mut [u8],
    answers: &mut [u8],
) -> Rehearsal
    ensures rehearses { Rehearses sites openings.now script.now rec.old answers.old rec.new answers.new (in_numbers result) }
    ensures script_value { (in_numbers result).number ≡ 0 → model_judgment (edition_of (record_of sites openings.now script.now)) work_words 4 (record_of sites openings.now script.now) ≡ Ok None }
{
    refuse::rehearsal_refused(sites, openings, script.len(), rec.len(), answers.len())?;
    Ok(accepted(sites, openings, script, rec, answers))
}
