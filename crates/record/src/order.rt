// A record read for the cab of a truck: the shovel, alone.
ghost use Rattle.std.specs.Prelude.{◌≡◌, List, ℕ};
ghost use Rattle.refusals.specs.Refusals.{numbered};
ghost use Rattle.records.specs.Orders.{order_for, SameOrder};

use record_form::form;
use refusals::Refusal;

// The shovel of a record of this truck, or refusal 20 or 21. THE CAB LEARNS NOTHING ELSE: from every record with the same truck and shovel it hears the same.
pub fn order_for(truck: u16, bytes: &[u8]) -> Result<u16, Refusal>
    ensures answer { numbered result ≡ order_for truck bytes.now }
    ensures alone { (other : List ℕ) → SameOrder bytes.now other → numbered result ≡ order_for truck other }
{
    if !form::is_whole(bytes) {
        return Err(Refusal::MalformedRecord);
    }
    if truck != form::half_at(bytes, form::TRUCK_AT) {
        return Err(Refusal::TruckMismatch);
    }
    Ok(form::half_at(bytes, form::SHOVEL_AT))
}
