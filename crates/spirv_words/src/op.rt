//! The numbers of instructions: `op::LOAD` is the number of OpLoad, the low half of its first word.
//! (SPIR-V specification, unified1, section 3, Instructions.)

/// The number of OpCapability.
pub const CAPABILITY: u32 = 17;
/// The number of OpExtInstImport.
pub const EXT_INST_IMPORT: u32 = 11;
/// The number of OpMemoryModel.
pub const MEMORY_MODEL: u32 = 14;
/// The number of OpEntryPoint.
pub const ENTRY_POINT: u32 = 15;
/// The number of OpExecutionMode.
pub const EXECUTION_MODE: u32 = 16;
/// The number of OpDecorate.
pub const DECORATE: u32 = 71;
/// The number of OpMemberDecorate.
pub const MEMBER_DECORATE: u32 = 72;
/// The number of OpTypeVoid.
pub const TYPE_VOID: u32 = 19;
/// The number of OpTypeBool.
pub const TYPE_BOOL: u32 = 20;
/// The number of OpTypeInt.
pub const TYPE_INT: u32 = 21;
/// The number of OpTypeVector.
pub const TYPE_VECTOR: u32 = 23;
/// The number of OpTypeArray.
pub const TYPE_ARRAY: u32 = 28;
/// The number of OpTypeRuntimeArray.
pub const TYPE_RUNTIME_ARRAY: u32 = 29;
/// The number of OpTypeStruct.
pub const TYPE_STRUCT: u32 = 30;
/// The number of OpTypePointer.
pub const TYPE_POINTER: u32 = 32;
/// The number of OpTypeFunction.
pub const TYPE_FUNCTION: u32 = 33;
/// The number of OpConstantTrue.
pub const CONSTANT_TRUE: u32 = 41;
/// The number of OpConstantFalse.
pub const CONSTANT_FALSE: u32 = 42;
/// The number of OpConstant.
pub const CONSTANT: u32 = 43;
/// The number of OpConstantComposite.
pub const CONSTANT_COMPOSITE: u32 = 44;
/// The number of OpConstantNull.
pub const CONSTANT_NULL: u32 = 46;
/// The number of OpCompositeConstruct.
pub const COMPOSITE_CONSTRUCT: u32 = 80;
/// The number of OpCompositeExtract.
pub const COMPOSITE_EXTRACT: u32 = 81;
/// The number of OpFunction.
pub const FUNCTION: u32 = 54;
/// The number of OpFunctionEnd.
pub const FUNCTION_END: u32 = 56;
/// The number of OpVariable.
pub const VARIABLE: u32 = 59;
/// The number of OpLoad.
pub const LOAD: u32 = 61;
/// The number of OpStore.
pub const STORE: u32 = 62;
/// The number of OpAccessChain.
pub const ACCESS_CHAIN: u32 = 65;
/// The number of OpArrayLength.
pub const ARRAY_LENGTH: u32 = 68;
/// The number of OpExtInst.
pub const EXT_INST: u32 = 12;
/// The number of OpIAdd.
pub const I_ADD: u32 = 128;
/// The number of OpISub.
pub const I_SUB: u32 = 130;
/// The number of OpIMul.
pub const I_MUL: u32 = 132;
/// The number of OpUDiv.
pub const U_DIV: u32 = 134;
/// The number of OpUMod.
pub const U_MOD: u32 = 137;
/// The number of OpIAddCarry.
pub const I_ADD_CARRY: u32 = 149;
/// The number of OpISubBorrow.
pub const I_SUB_BORROW: u32 = 150;
/// The number of OpUMulExtended.
pub const U_MUL_EXTENDED: u32 = 151;
/// The number of OpSMulExtended.
pub const S_MUL_EXTENDED: u32 = 152;
/// The number of OpLogicalOr.
pub const LOGICAL_OR: u32 = 166;
/// The number of OpLogicalAnd.
pub const LOGICAL_AND: u32 = 167;
/// The number of OpLogicalNot.
pub const LOGICAL_NOT: u32 = 168;
/// The number of OpSelect.
pub const SELECT: u32 = 169;
/// The number of OpIEqual.
pub const I_EQUAL: u32 = 170;
/// The number of OpINotEqual.
pub const I_NOT_EQUAL: u32 = 171;
/// The number of OpUGreaterThanEqual.
pub const U_GREATER_THAN_EQUAL: u32 = 174;
/// The number of OpSGreaterThanEqual.
pub const S_GREATER_THAN_EQUAL: u32 = 175;
/// The number of OpULessThan.
pub const U_LESS_THAN: u32 = 176;
/// The number of OpSLessThan.
pub const S_LESS_THAN: u32 = 177;
/// The number of OpShiftRightLogical.
pub const SHIFT_RIGHT_LOGICAL: u32 = 194;
/// The number of OpShiftRightArithmetic.
pub const SHIFT_RIGHT_ARITHMETIC: u32 = 195;
/// The number of OpShiftLeftLogical.
pub const SHIFT_LEFT_LOGICAL: u32 = 196;
/// The number of OpBitwiseOr.
pub const BITWISE_OR: u32 = 197;
/// The number of OpBitwiseXor.
pub const BITWISE_XOR: u32 = 198;
/// The number of OpBitwiseAnd.
pub const BITWISE_AND: u32 = 199;
/// The number of OpNot.
pub const NOT: u32 = 200;
/// The number of OpBitFieldInsert.
pub const BIT_FIELD_INSERT: u32 = 201;
/// The number of OpBitFieldSExtract.
pub const BIT_FIELD_S_EXTRACT: u32 = 202;
/// The number of OpBitFieldUExtract.
pub const BIT_FIELD_U_EXTRACT: u32 = 203;
/// The number of OpBitReverse.
pub const BIT_REVERSE: u32 = 204;
/// The number of OpBitCount.
pub const BIT_COUNT: u32 = 205;
/// The number of OpControlBarrier.
pub const CONTROL_BARRIER: u32 = 224;
/// The number of OpMemoryBarrier.
pub const MEMORY_BARRIER: u32 = 225;
/// The number of OpAtomicExchange.
pub const ATOMIC_EXCHANGE: u32 = 229;
/// The number of OpAtomicCompareExchange.
pub const ATOMIC_COMPARE_EXCHANGE: u32 = 230;
/// The number of OpAtomicIAdd.
pub const ATOMIC_I_ADD: u32 = 234;
/// The number of OpAtomicISub.
pub const ATOMIC_I_SUB: u32 = 235;
/// The number of OpAtomicSMin.
pub const ATOMIC_S_MIN: u32 = 236;
/// The number of OpAtomicUMin.
pub const ATOMIC_U_MIN: u32 = 237;
/// The number of OpAtomicSMax.
pub const ATOMIC_S_MAX: u32 = 238;
/// The number of OpAtomicUMax.
pub const ATOMIC_U_MAX: u32 = 239;
/// The number of OpAtomicAnd.
pub const ATOMIC_AND: u32 = 240;
/// The number of OpAtomicOr.
pub const ATOMIC_OR: u32 = 241;
/// The number of OpAtomicXor.
pub const ATOMIC_XOR: u32 = 242;
/// The number of OpLoopMerge.
pub const LOOP_MERGE: u32 = 246;
/// The number of OpSelectionMerge.
pub const SELECTION_MERGE: u32 = 247;
/// The number of OpLabel.
pub const LABEL: u32 = 248;
/// The number of OpBranch.
pub const BRANCH: u32 = 249;
/// The number of OpBranchConditional.
pub const BRANCH_CONDITIONAL: u32 = 250;
/// The number of OpSwitch.
pub const SWITCH: u32 = 251;
/// The number of OpReturn.
pub const RETURN: u32 = 253;
/// The number of OpUnreachable.
pub const UNREACHABLE: u32 = 255;
