//! Laws over the definitions. Each of these functions does nothing: its contract is the law.
ghost use Rattle.std.specs.Prelude.{◌≡◌, ◌↔◌, ℕ, List, slice_get};
ghost use Rattle.std.specs.List.{filter};
ghost use Rattle.std.specs.Option.{option_map};
ghost use Rattle.sieve_script.specs.Label.{row_is_filled, labels_of, slots_of};
ghost use Rattle.sieve_script.specs.Positional.{IsOwn, at_slot, before_at, fit_one_by_one, is_positional, is_positional_label, meant_slots, positional_of};
ghost use Rattle.sieve_table.specs.Table.{Row};
ghost use Rattle.sieve_script.specs.declared.label.Label.TheVariants.{Own, Tagged};
ghost use Rattle.sieve_script.specs.declared.label.Shape.{Shape};
ghost use Rattle.sieve_script.specs.declared.label.Shape.TheVariants as shape;
ghost use Rattle.sieve_table.specs.declared.row.Slot.{Slot};
ghost use Rattle.sieve_table.specs.declared.tag.Tag.{Tag};

/// The label of each argument, by its shape and that of the argument right before it (RFC 5228,
/// section 2.6). Tags that are taken are labelled so, and nothing else is. An argument is a tag's
/// own exactly where two things hold. The one right before it is a tag that takes an argument, and
/// it fits the tag's form. The others that are no tags are positional. The i-th of them has the
/// i-th slot where it fits it. It is unfit where it doesn't fit it, or no slot is left. Where a row
/// has a slot in front, there are two lists of slots (RFC 5232, sections 3 and 4). The longer one,
/// with that slot, counts exactly where the positional arguments fit it one by one. A row is filled
/// exactly where the positional arguments fit the slots that count one by one.
pub fn arguments_are_tags_own_or_positional()
    ensures tagged { (row : Row) (shapes : List Shape) (place : ℕ) (tag : Tag)
        → (slice_get (labels_of row shapes) place ≡ Some (Tagged tag))
        ↔ (slice_get shapes place ≡ Some (shape.Tag (Some tag))) }
    ensures own { (row : Row) (shapes : List Shape) (place : ℕ) (slot : Slot)
        → (slice_get (labels_of row shapes) place ≡ Some (Own slot)) ↔ IsOwn shapes place slot }
    ensures others { (row : Row) (shapes : List Shape) (place : ℕ)
        → option_map is_positional_label (slice_get (labels_of row shapes) place)
        ≡ option_map (is_positional (before_at shapes place)) (slice_get shapes place) }
    ensures positional { (row : Row) (shapes : List Shape) (i : ℕ)
        → slice_get (filter is_positional_label (labels_of row shapes)) i ≡ option_map
        (at_slot (slice_get (slots_of row shapes) i)) (slice_get (positional_of shapes) i) }
    ensures longer { (row : Row) (shapes : List Shape)
        → slots_of row shapes ≡ meant_slots row.front row.slots (positional_of shapes) }
    ensures filled { (row : Row) (shapes : List Shape)
        → row_is_filled row shapes ≡ fit_one_by_one (slots_of row shapes) (positional_of shapes) }
{}
