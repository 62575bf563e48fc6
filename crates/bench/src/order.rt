// An order: what is asked of one head, within the limits of every order.
ghost use Rattle.std.specs.Prelude.{◌≡◌, true};
ghost use Rattle.bench.specs.Sound.{order_ok};

use history::Asked;

#[derive(Clone, Copy)]
pub struct Order {
    pub(crate) asked: Asked,
    ghost limits: { order_ok asked ≡ true },
}
