ghost use Rattle.std.specs.Prelude.{◌≡◌, ◌<◌, ◌≤◌, ◌+◌, IsSome, vec_len, vec_capacity};
ghost use Rattle.lvdc_machine.specs.Steps.{noted};

/// Appends an item to a list, if there is one.
pub fn note<T: Copy>(list: &mut Vec<T>, item: Option<T>)
    requires { IsSome item → vec_len list.old < vec_capacity list.old }
    ensures items { list.new.items ≡ noted list.old.items item }
    ensures length { vec_len list.new ≤ vec_len list.old + 1 }
    ensures none { item ≡ None → vec_len list.new ≡ vec_len list.old }
    ensures capacity { vec_capacity list.old ≤ vec_capacity list.new }
{
    if let Some(item) = item {
        let pushed = list.push(item);
        prove!(pushed.is_ok());
    }
}
