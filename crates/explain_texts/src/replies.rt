//! Why the reply of a script's call doesn't fit: docs/HOST.md, "Steps", on the reply.

use crate::values::{
    Parameter, made_objects, write_misfit, write_object, write_result, write_seen, write_target,
};
use explain_base::Line;
use host_model::{TypedObject, fits};
use note_types::{
    Field, Notes, OutValue, Script, ScriptCall, Seen, Shape, Signature, Value, Want, WantParam,
    WriteValue, content_type,
};

/// What of a reply doesn't fit: the call as a whole, or the item of that number of the list at a key; of `result` it is 0.
#[derive(Clone, Copy)]
pub(crate) enum Unfit {
    Call,
    Item(&'static str, usize),
}

/// A reply: the call of the script, its signature, and the objects that are made by then.
#[derive(Clone, Copy)]
struct Reply<'a> {
    notes: &'a Notes,
    made: &'a [TypedObject],
    call: &'a ScriptCall,
    signature: &'a Signature,
}

impl Reply<'_> {
    // How often `out` has to name an argument, and how often it may.
    fn times(&self, want: Want) -> (usize, usize) {
        let is_error = matches!(self.call.result, Value::StatusError(_));
        match want {
            Want::Out(_) if is_error => (0, 0),
            Want::Out(_) => (1, 1),
            Want::Inout(_) => (0, 1),
            _ => (0, 0),
        }
    }

    // Whether `out` names an argument too often or not often enough, and what is wrong then.
    fn misnames(&self, number: usize, param: &WantParam, line: &mut Line) -> bool {
        let (least, most) = self.times(param.want);
        let mut times = 0usize;
        for out in self.call.out.as_slice() {
            if out.argument == number as u64 {
                times = times.saturating_add(1);
            }
        }
        if least <= times && times <= most {
            return false;
        }
        line.text("it has ");
        if times < least {
            line.text("no");
        } else {
            line.count(times);
        }
        line.text(" out for argument ").count(number).text(", ");
        param.write(self.notes, line);
        line.text(if times < least {
            ", and its result "
        } else {
            ", with the result "
        });
        let result = Seen {
            lent: false,
            value: self.call.result,
        };
        write_seen(self.notes, result, line);
        if times < least {
            line.text(" is no error");
        } else {
            line.text("; wanted: ").count(most);
        }
        true
    }

    // What is wrong with a value of `out`, if it is wrong.
    fn is_wrong_out(&self, out: &OutValue, line: &mut Line) -> bool {
        let number = out.argument;
        let Some(param) = self.signature.params.as_slice().get(number as usize) else {
            line.text(", and there is no argument ").number(number);
            return true;
        };
        let cell = match param.want {
            Want::Out(cell) | Want::Inout(cell) => cell,
            _ => return false,
        };
        if fits(self.made, &content_type(&cell), &out.value) {
            return false;
        }
        if write_target(self.notes, self.made, &out.value, line) {
            line.text("; argument ").number(number).text(" is ");
            param.write(self.notes, line);
        }
        true
    }

    // The shape and the field of a cell that a `write` names, if it is there.
    fn field_at(&self, write: &WriteValue) -> Option<(&Shape, &Field)> {
        let object = self.made.get(write.object as usize)?;
        let shape = self.notes.shape.as_slice().get(object.shape as usize)?;
        let field = shape.fields.as_slice().get(write.field as usize)?;
        Some((shape, field))
    }

    // What is wrong with a value of `write`, if it is wrong.
    fn is_wrong_write(&self, write: &WriteValue, line: &mut Line) -> bool {
        let Some((shape, field)) = self.field_at(write) else {
            write_object(self.notes, self.made, write.object, line);
            return true;
        };
        if fits(self.made, &content_type(&field.cell), &write.value) {
            return false;
        }
        write_misfit(self.notes, self.made, &write.value, shape, field, line);
        true
    }

    // The first value of `out` or `write` that is wrong, and what is wrong with it.
    fn wrong_value(&self, line: &mut Line) -> Option<Unfit> {
        for (item, out) in self.call.out.as_slice().iter().enumerate() {
            if self.is_wrong_out(out, line) {
                return Some(Unfit::Item("out", item));
            }
        }
        for (item, write) in self.call.write.as_slice().iter().enumerate() {
            if self.is_wrong_write(write, line) {
                return Some(Unfit::Item("write", item));
            }
        }
        None
    }

    // What doesn't fit, and why.
    fn unfit(&self, line: &mut Line) -> Unfit {
        let is_result = match &self.signature.result {
            Some(ty) => fits(self.made, ty, &self.call.result),
            None => matches!(self.call.result, Value::Any),
        };
        if !is_result {
            if write_target(self.notes, self.made, &self.call.result, line) {
                line.text("; ")
                    .text(self.signature.name.as_str())
                    .text(" gives ");
                write_result(self.notes, self.signature, "none, written any", line);
            }
            return Unfit::Item("result", 0);
        }
        if let Some(unfit) = self.wrong_value(line) {
            return unfit;
        }
        for (number, param) in self.signature.params.as_slice().iter().enumerate() {
            if self.misnames(number, param, line) {
                return Unfit::Call;
            }
        }
        line.text("a cell that it writes isn't mapped");
        Unfit::Call
    }
}

/// What of the reply of a script's call doesn't fit, once so many calls were accepted; it writes why. `None` where there is no such call.
pub(crate) fn unfit_reply(
    notes: &Notes,
    script: &Script,
    entry: usize,
    accepted: usize,
    line: &mut Line,
) -> Option<Unfit> {
    let call = script.call.as_slice().get(entry)?;
    let signature = notes.signature.as_slice().get(call.signature as usize)?;
    let made = made_objects(notes, script, accepted, line);
    let reply = Reply {
        notes,
        made: made.as_slice(),
        call,
        signature,
    };
    Some(reply.unfit(line))
}
