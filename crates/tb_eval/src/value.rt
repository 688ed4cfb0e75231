ghost use Rattle.std.specs.Prelude.{◌≡◌, slice_get};
ghost use Rattle.tb_eval.specs.Value.{operand_value, pointer_in, variable_pointer, place_pointer, rvalue_value, integer_in, int_operand, sum_of};

use crate::outcome::{EvalError, Panic};
use tb_heap::{Stop, Value};
use tb_mir::{Base, BinOp, Constant, Operand, Place, Rvalue};
use tb_perm::Prov;

/// What a local has at a moment.
#[derive(Clone, Copy, Debug, PartialEq, Eq)]
pub enum Slot {
    /// A variable that is not live.
    Dead,
    /// A variable that is live, and the pointer to its allocation.
    Live(Prov),
    /// A temporary without a value.
    Empty,
    /// A temporary with a value.
    Holds(Value),
}

/// The value of an operand. A temporary without one is a read of an uninitialised byte.
pub fn operand(locals: &[Slot], operand: Operand) -> Result<Value, Stop>
    ensures { result ≡ operand_value locals.now operand }
{
    match operand {
        Operand::Const(Constant::Unit) => Ok(Value::Unit),
        Operand::Const(Constant::Int(int)) => Ok(Value::Int(int)),
        Operand::Temp(temp) => match locals.get(temp as usize) {
            Some(Slot::Holds(value)) => Ok(*value),
            _ => Err(Stop::Uninit),
        },
    }
}

/// The pointer in a value. Another value has no bytes of a pointer.
pub fn pointer(value: Value) -> Result<Option<Prov>, Stop>
    ensures { result ≡ pointer_in value }
{
    match value {
        Value::Pointer(pointer) => Ok(pointer),
        Value::Unit | Value::Int(_) => Err(Stop::Uninit),
    }
}

/// Where a variable lies, if it is live.
pub fn variable(locals: &[Slot], variable: u32) -> Option<Prov>
    ensures { result ≡ variable_pointer (slice_get locals.now variable) }
{
    match locals.get(variable as usize) {
        Some(Slot::Live(prov)) => Some(*prov),
        _ => None,
    }
}

/// The pointer to a place. A variable that is not live lies nowhere.
pub fn place(locals: &[Slot], place: Place) -> Result<Option<Prov>, Stop>
    ensures { result ≡ place_pointer locals.now place }
{
    match place.base {
        Base::Variable(of) => Ok(variable(locals, of)),
        Base::Deref(temp) => pointer(operand(locals, Operand::Temp(temp))?),
    }
}

/// The integer in a value. Another value has no bytes of an integer.
fn integer(value: Value) -> Result<i32, Stop>
    ensures { result ≡ integer_in value }
{
    match value {
        Value::Int(int) => Ok(int),
        Value::Unit | Value::Pointer(_) => Err(Stop::Uninit),
    }
}

/// The integer that an operand is.
pub fn int(locals: &[Slot], of: Operand) -> Result<i32, Stop>
    ensures { result ≡ int_operand locals.now of }
{
    match operand(locals, of) {
        Ok(value) => integer(value),
        Err(stop) => Err(stop),
    }
}

/// The value of a right side.
pub fn rvalue(locals: &[Slot], rvalue: Rvalue) -> Result<Value, EvalError>
    ensures { result ≡ rvalue_value locals.now rvalue }
{
    match rvalue {
        Rvalue::Ref(_, to) => Ok(Value::Pointer(place(locals, to)?)),
        Rvalue::Use(of) => Ok(operand(locals, of)?),
        Rvalue::Binary(BinOp::Add, left, right) => {
            let left = int(locals, left)?;
            let right = int(locals, right)?;
            match left.checked_add(right) {
                Some(sum) => Ok(Value::Int(sum)),
                None => Err(EvalError::Panic(Panic::Overflow)),
            }
        }
    }
}
