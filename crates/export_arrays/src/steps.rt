// The numbers of a step of a session.
ghost use Rattle.std.specs.Prelude.{◌≡◌};
ghost use Rattle.export_arrays.specs.Steps.{step_array, message_step, layer_number, StepLeaves};

use crate::bodies::message_numbers;
use walk_read::{Layer, MessageItem, StepRead};

// 0, with the numbers of the step in r; or 12 for a place past the length, with r as it was.
#[tactic(auto, unfolding(crate::specs::Steps::step_number, crate::specs::Steps::step_after))]
pub fn step_result(step: StepRead, r: &mut [u64; 11]) -> u8
    ensures { StepLeaves step result r.old r.new }
{
    match step {
        StepRead::Handshake(i) => {
            *r = array(1, i.start.0, i.end.0, i.verdict as u64);
            0
        }
        StepRead::Message(i) => {
            *r = message_array(i);
            0
        }
        StepRead::End => {
            *r = array(0, 0, 0, 0);
            0
        }
        StepRead::Stop(t) => {
            *r = array(3, t.start.0, layer_number(t.layer), t.number as u64);
            0
        }
        StepRead::Outside => 12,
    }
}

fn array(kind: u64, a: usize, b: usize, c: u64) -> [u64; 11]
    ensures { result ≡ step_array kind a b c }
{
    [kind, a as u64, b as u64, c, 0, 0, 0, 0, 0, 0, 0]
}

// C's number of a layer.
#[tactic(auto, unfolding(crate::specs::Steps::layer_number))]
fn layer_number(layer: Layer) -> usize
    ensures { result ≡ layer_number layer }
{
    match layer {
        Layer::Handshake => 1,
        Layer::Frame => 2,
        Layer::Body => 3,
    }
}

fn message_array(i: MessageItem) -> [u64; 11]
    ensures { result ≡ message_step i }
{
    let numbers = message_numbers(i.message, 0);
    [
        2,
        i.start.0 as u64,
        i.end.0 as u64,
        i.code as u64,
        i.body.start.0 as u64,
        i.body.len as u64,
        numbers[0],
        numbers[1],
        numbers[2],
        numbers[3],
        0,
    ]
}
