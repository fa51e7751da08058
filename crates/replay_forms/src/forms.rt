//! The forms in which a schedule is shown.

ghost use Rattle.std.specs.Prelude.{◌≡◌};

/// How a schedule is shown.
#[derive(Clone, Copy)]
pub enum Form {
    /// A line for each beginning, step and answer.
    Events,
    /// A line for each beginning, step and answer, in a column for each task. The columns are so many bytes wide together.
    Columns { width: usize },
    /// A record for each, as a line of JSON.
    Json,
    /// One picture of all of it, as SVG.
    Picture,
    /// A comment for each task whose last step has to wait, as `#   0 waiting for section1, task 1`, behind all lines.
    Waits,
}

/// By which names words are printed.
#[derive(Clone, Copy, PartialEq, Eq)]
pub enum Names {
    /// Those of schedules, as `umount`.
    Schedule,
    /// Those of Linux 6.1, as `s_umount`.
    Kernel,
}

/// How words and their values are printed.
#[derive(Clone, Copy)]
pub struct Style {
    pub names: Names,
    /// Whether values are the numbers in memory, and not what these say.
    pub raw: bool,
}

impl Style {
    ghost use Rattle.replay_forms.specs.Styles.{style_of};

    /// The style with the kernel's names or not, and with values as numbers or not.
    pub fn of(has_kernel_names: bool, raw: bool) -> Style
        ensures { result ≡ style_of has_kernel_names raw }
    {
        Style {
            names: if has_kernel_names {
                Names::Kernel
            } else {
                Names::Schedule
            },
            raw,
        }
    }
}

/// A form, and how words and their values are printed in it.
#[derive(Clone, Copy)]
pub struct Look {
    pub form: Form,
    pub style: Style,
}
