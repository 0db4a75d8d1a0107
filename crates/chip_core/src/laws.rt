// What holds of every chip's tables.
ghost use Rattle.std.specs.Prelude.{◌≡◌, None};
ghost use Rattle.net_types.specs.Capacity.{over};
ghost use Rattle.net_types.specs.declared.table.Caps.{Caps as CapsValue};
ghost use Rattle.net_types.specs.declared.table.Tables.{Tables as TablesValue};
ghost use Rattle.chip_core.specs.Chip.{IsChip, IsImage, view_of};
ghost use Rattle.chip_core.specs.ViewLaws.{NameHostsOnce};

/// What a chip's tables mean fits the chip: no table has more rows than its capacity.
pub fn chip_fits()
    ensures { (caps : CapsValue) (raw : TablesValue) → IsChip caps raw → over (view_of raw) caps ≡ None }
{}

/// Where no group of a chip names a host twice, `from_rows` takes the chip's tables.
pub fn chip_is_image()
    ensures { (caps : CapsValue) (raw : TablesValue) → IsChip caps raw → NameHostsOnce (view_of raw) → IsImage caps raw }
{}
