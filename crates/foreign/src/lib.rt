// A form and a selector from outside the twin: they prove the same laws, and work through the same public function.
#![tactic(auto)]

pub mod dual_rail;
pub mod middle_start;

#[cfg(test)]
mod tests {
    use crate::dual_rail::DualRail;
    use crate::middle_start::MiddleStart;
    use recurrence::make::Make;
    use recurrence::work::work;
    use selection::operand::Operand;
    use std::test::Fail;

    #[test]
    fn eight_sixteenths(rt: HostRuntime) -> Result<(), Fail> {
        let operand = Operand::new(4, 4, 8).map_err(|_| Fail::new("8 is an operand of 4 bits"))?;
        let make = Make {
            selector: &MiddleStart,
            form: &DualRail,
        };
        assert_eq!(rt; work(&make, operand).f, 22);
        Ok(())
    }
}
