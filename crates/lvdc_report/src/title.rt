ghost use Rattle.std.specs.Prelude.{◌≡◌};
ghost use Rattle.lvdc_report.specs.Report.{title_line};

/// Which run a report is of; its first line says so.
#[derive(Clone, Copy, PartialEq, Eq)]
pub enum Title {
    Run,
    Plain,
    Through,
}

/// The first line of a report.
pub(crate) fn title_line(title: Title) -> &'static [u8]
    ensures { result.now ≡ title_line title }
{
    match title {
        Title::Run => b"LVDC RUN\n",
        Title::Plain => b"LVDC PLAIN\n",
        Title::Through => b"LVDC THROUGH\n",
    }
}
