// The groups of a message as an order record: document 02, S-1.
#![tactic(auto)]

ghost use Rattle.std.specs.Prelude.{◌≡◌, ◌≤◌};
ghost use Rattle.rules.specs.Order.{Recorded};
ghost use Rattle.rules.specs.Fix.{legs_said};
ghost use Rattle.message_order.specs.Groups.{groups_at, HasGroups, IsGroup, leg_of_fields};

use fields::{Field, next_field};
use leg_bytes::bytes_of;
use number_values::{is_one, number_of};
use rules::{Order, RawLeg, Terms};

// The leg of a group's three fields.
fn leg_said(message: &[u8], symbol: Field, ratio: Field, side: Field) -> RawLeg
    requires { IsGroup message.now symbol ratio side }
    ensures { result ≡ leg_of_fields message.now symbol ratio side }
{
    RawLeg {
        bought: is_one(side.value.of(message)),
        size: number_of(ratio.value.of(message)),
        symbol: bytes_of(symbol.value.of(message)),
    }
}

// The order record of the `n` groups that stand at the place `at`.
pub fn order_said(message: &[u8], at: usize, n: usize, terms: Terms) -> Order
    requires { (n ≤ 16) × HasGroups message.now at n }
    ensures { Recorded n (legs_said (groups_at message.now at n)) terms result }
{
    let blank = RawLeg {
        bought: false,
        size: 0,
        symbol: [0; 21],
    };
    let mut legs = [blank; 16];
    let mut next = at;
    for i in 0..n {
        let symbol = next_field(message, next).unwrap();
        let ratio = next_field(message, symbol.next).unwrap();
        let side = next_field(message, ratio.next).unwrap();
        next = side.next;
        legs[i] = leg_said(message, symbol, ratio, side);
    }
    Order {
        legs,
        len: n,
        terms,
    }
}
