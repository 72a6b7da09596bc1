use exports::task::Task;
use number_form::NumberForm;
use number_form::borrow_save::BorrowSave;
use number_form::carry_save::CarrySave;
use number_form::plain::Plain;
use recurrence::make::Make;
use selection::Selector;
use selection::radix2::Radix2;
use selection::radix4::Radix4;

/// Works a task off by all six makes; gives what it comes to where they agree.
pub(crate) fn six<T: Task>(task: &T) -> Option<T::Told>
where
    T::Told: PartialEq + Drop,
{
    let told = by(task, &Radix2, &Plain);
    let agree = by(task, &Radix2, &CarrySave) == told
        && by(task, &Radix2, &BorrowSave) == told
        && by(task, &Radix4, &Plain) == told
        && by(task, &Radix4, &CarrySave) == told
        && by(task, &Radix4, &BorrowSave) == told;
    agree.then_some(told)
}

/// Works a task off by the make of a selector and a form.
fn by<T: Task, S: Selector, F: NumberForm>(task: &T, selector: &S, form: &F) -> T::Told {
    task.by(&Make { selector, form })
}
